//! The text of a tree.

ghost use Rattle.std.specs.Prelude.{◌≡◌, ◌++◌, IfOk, OnOk};
ghost use Rattle.std.specs.List.{flat_map};
ghost use Rattle.gh_picture.specs.Written.{escape, escaped, attribute_text, opened, closed, leaf_text, group_text};
ghost use Rattle.gh_picture.specs.Written.{panel_text, svg_text};

use crate::tree::{Attribute, Attributes, Group, Leaf, Panel, Svg, Tag};
use gh_base::text::Text;
use std::alloc::{AllocError, Global};

// Adds a character with its escape.
fn push_escape(out: &mut Text, byte: u8) -> Result<(), AllocError>
    ensures { OnOk result (out.new ≡ out.old ++ escape byte) }
{
    match byte {
        b'<' => out.push(b"&lt;"),
        b'>' => out.push(b"&gt;"),
        b'&' => out.push(b"&amp;"),
        b'"' => out.push(b"&quot;"),
        b' '..=b'~' => out.push(&[byte]),
        _ => out.push(b"?"),
    }
}

fn push_escaped(out: &mut Text, bytes: &[u8]) -> Result<(), AllocError>
    ensures { OnOk result (out.new ≡ out.old ++ escaped bytes.now) }
{
    for byte in bytes {
        push_escape(out, *byte)?;
    }
    Ok(())
}

fn push_attribute(out: &mut Text, attribute: &Attribute) -> Result<(), AllocError>
    ensures { OnOk result (out.new ≡ out.old ++ attribute_text attribute.now) }
{
    out.push(b" ")?;
    out.push(attribute.key.word())?;
    out.push(b"=\"")?;
    push_escaped(out, attribute.value.bytes())?;
    out.push(b"\"")
}

fn push_attributes(out: &mut Text, attributes: &Attributes) -> Result<(), AllocError>
    ensures { OnOk result (out.new ≡ out.old ++ flat_map attribute_text attributes.now) }
{
    for attribute in attributes.as_slice() {
        push_attribute(out, attribute)?;
    }
    Ok(())
}

fn push_opened(out: &mut Text, tag: Tag, attributes: &Attributes) -> Result<(), AllocError>
    ensures { OnOk result (out.new ≡ out.old ++ opened tag attributes.now) }
{
    out.push(b"<")?;
    out.push(tag.word())?;
    push_attributes(out, attributes)?;
    out.push(b">")
}

fn push_closed(out: &mut Text, tag: Tag) -> Result<(), AllocError>
    ensures { OnOk result (out.new ≡ out.old ++ closed tag) }
{
    out.push(b"</")?;
    out.push(tag.word())?;
    out.push(b">")
}

fn push_leaf(out: &mut Text, leaf: &Leaf) -> Result<(), AllocError>
    ensures { OnOk result (out.new ≡ out.old ++ leaf_text leaf.now) }
{
    push_opened(out, leaf.tag, &leaf.attributes)?;
    push_escaped(out, leaf.text.bytes())?;
    push_closed(out, leaf.tag)
}

fn push_leaves(out: &mut Text, leaves: &[Leaf]) -> Result<(), AllocError>
    ensures { OnOk result (out.new ≡ out.old ++ flat_map leaf_text leaves.now) }
{
    for leaf in leaves {
        push_leaf(out, leaf)?;
    }
    Ok(())
}

fn push_group(out: &mut Text, group: &Group) -> Result<(), AllocError>
    ensures { OnOk result (out.new ≡ out.old ++ group_text group.now) }
{
    push_opened(out, group.tag, &group.attributes)?;
    push_leaves(out, group.leaves.as_slice())?;
    push_closed(out, group.tag)
}

fn push_groups(out: &mut Text, groups: &[Group]) -> Result<(), AllocError>
    ensures { OnOk result (out.new ≡ out.old ++ flat_map group_text groups.now) }
{
    for group in groups {
        push_group(out, group)?;
    }
    Ok(())
}

fn push_panel(out: &mut Text, panel: &Panel) -> Result<(), AllocError>
    ensures { OnOk result (out.new ≡ out.old ++ panel_text panel.now) }
{
    push_opened(out, Tag::G, &panel.attributes)?;
    push_groups(out, panel.groups.as_slice())?;
    push_closed(out, Tag::G)
}

fn push_panels(out: &mut Text, panels: &[Panel]) -> Result<(), AllocError>
    ensures { OnOk result (out.new ≡ out.old ++ flat_map panel_text panels.now) }
{
    for panel in panels {
        push_panel(out, panel)?;
    }
    Ok(())
}

/// The text of a tree.
pub fn write(alloc: Global, svg: &Svg) -> Result<Text, AllocError>
    ensures { IfOk result (λ t. t ≡ svg_text svg.now) }
{
    let mut text = Text::new(alloc);
    push_opened(&mut text, Tag::Svg, &svg.attributes)?;
    push_panels(&mut text, svg.panels.as_slice())?;
    push_closed(&mut text, Tag::Svg)?;
    Ok(text)
}
