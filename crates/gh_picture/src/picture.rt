//! Pictures.

ghost use Rattle.std.specs.Prelude.{◌≡◌, IfOk};
ghost use Rattle.gh_picture.specs.Looks.{style_group, marker_group};
ghost use Rattle.gh_picture.specs.Pictures as drawn;
ghost use Rattle.gh_picture.specs.Pictures.{IsHead, IsTreeOf, IsPicture, AddsPanels, frame_of, hundreds_text};

use crate::rows::{draw_row, text_columns};
use crate::scene::{Row, Scene};
use crate::shapes::{group, leaf};
use crate::tree::{Attributes, Group, Items, Key, Leaf, Panel, Svg, Tag};
use crate::writing::write;
use gh_base::text::Text;
use itoa::Buffer;
use std::alloc::{AllocError, Global};

/// How the parts of a picture look.
pub const STYLE: &[u8] =
    b"svg{background:#fff}text{font:12px monospace;fill:#222}path{fill:none;stroke:#222;stroke-width:1.3}.rule{stroke:#ccc;stroke-width:1}.next,.lost{marker-end:url(#arrow)}.place,.name,.role{text-anchor:middle}.title{font-size:15px;font-weight:bold}.statement{font-weight:bold}.note{fill:#555}.name,.apart{fill:#124a91}.apart{font-size:11px}.role{font-size:9px}.owned .role{display:none}.framed path{stroke:#999;stroke-dasharray:4 3}.framed text{fill:#888}.changed path{stroke:#c1440e;stroke-width:2.6}.changed text{fill:#c1440e;font-weight:bold}.variable.changed text{text-decoration:underline}.leaked .box{stroke:#a3008c;stroke-width:2;stroke-dasharray:1 2;fill:#f6e3f4}.leaked text{fill:#a3008c;font-weight:bold}";

// The style sheet of a picture.
fn style(alloc: Global) -> Result<Group, AllocError>
    ensures { IfOk result (λ g. g ≡ style_group) }
{
    let mut text = Text::new(alloc);
    text.push(STYLE)?;
    let leaf = Leaf {
        tag: Tag::Style,
        attributes: Attributes::new(alloc),
        text,
    };
    group(alloc, b"style", Items::new(alloc).with(leaf)?)
}

// The head of an arrow.
fn marker(alloc: Global) -> Result<Group, AllocError>
    ensures { IfOk result (λ g. g ≡ marker_group) }
{
    let attributes = Attributes::new(alloc)
        .with(alloc, Key::Id, b"arrow")?
        .with(alloc, Key::RefX, b"6")?
        .with(alloc, Key::RefY, b"4")?
        .with(alloc, Key::MarkerWidth, b"8")?
        .with(alloc, Key::MarkerHeight, b"8")?
        .with(alloc, Key::Orient, b"auto")?;
    let head = leaf(alloc, Tag::Path, b"point", Key::D, b"M1 1L7 4L1 7", b"")?;
    Ok(Group {
        tag: Tag::Marker,
        attributes,
        leaves: Items::new(alloc).with(head)?,
    })
}

fn title_group(alloc: Global, title: &[u8]) -> Result<Group, AllocError>
    ensures { IfOk result (λ g. g ≡ drawn.title_group title.now) }
{
    let words = leaf(
        alloc,
        Tag::Text,
        b"title",
        Key::Transform,
        b"translate(14 30)",
        title,
    )?;
    group(alloc, b"head", Items::new(alloc).with(words)?)
}

// What stands before the rows.
fn head(alloc: Global, title: &[u8]) -> Result<Panel, AllocError>
    ensures { IfOk result (IsHead title.now) }
{
    let mut groups = Items::new(alloc);
    groups.push(style(alloc)?)?;
    groups.push(marker(alloc)?)?;
    groups.push(title_group(alloc, title)?)?;
    Ok(Panel {
        attributes: Attributes::new(alloc),
        groups,
    })
}

// A number of hundreds.
fn hundreds(alloc: Global, number: usize) -> Result<Text, AllocError>
    ensures { IfOk result (λ t. t ≡ hundreds_text number) }
{
    let mut digits = Buffer::new();
    let mut out = Text::new(alloc);
    out.push(digits.format(number).as_bytes())?;
    out.push(b"00")?;
    Ok(out)
}

// The size of a picture.
fn frame(alloc: Global, columns: usize, lines: usize) -> Result<Attributes, AllocError>
    ensures { IfOk result (λ a. a ≡ frame_of columns lines) }
{
    let width = hundreds(alloc, columns)?;
    let height = hundreds(alloc, lines)?;
    let mut view = Text::new(alloc);
    view.push(b"0 0 ")?;
    view.push(width.bytes())?;
    view.push(b" ")?;
    view.push(height.bytes())?;
    Attributes::new(alloc)
        .with(alloc, Key::Xmlns, b"http://www.w3.org/2000/svg")?
        .with(alloc, Key::Width, width.bytes())?
        .with(alloc, Key::Height, height.bytes())?
        .with(alloc, Key::ViewBox, view.bytes())
}

// How many columns and lines a picture has.
#[derive(Clone, Copy, Debug)]
struct Extent {
    columns: usize,
    lines: usize,
}

// Adds a panel for each row, one below the other, and answers their extent, with no fewer columns than
// are given.
fn push_rows(
    alloc: Global,
    panels: &mut Items<Panel>,
    rows: &[Row],
    columns: usize,
) -> Result<Extent, AllocError>
    ensures { IfOk result (λ e. AddsPanels rows.now columns panels.old panels.new e.lines e.columns) }
{
    let mut extent = Extent { columns, lines: 0 };
    for row in rows {
        let drawn = draw_row(alloc, row, extent.lines)?;
        extent = Extent {
            columns: extent.columns.max(drawn.columns),
            lines: drawn.below,
        };
        panels.push(drawn.panel)?;
    }
    Ok(extent)
}

// The tree of a picture.
fn tree(alloc: Global, scene: &Scene) -> Result<Svg, AllocError>
    ensures { IfOk result (IsTreeOf scene.now) }
{
    let mut panels = Items::new(alloc);
    let head = head(alloc, scene.title.bytes())?;
    panels.push(head)?;
    let columns = text_columns(&scene.title);
    let extent = push_rows(alloc, &mut panels, scene.rows.as_slice(), columns)?;
    let attributes = frame(alloc, extent.columns, extent.lines.saturating_add(1))?;
    Ok(Svg { attributes, panels })
}

/// The text of a picture: one SVG element, with a row for each state.
pub fn picture(alloc: Global, scene: &Scene) -> Result<Text, AllocError>
    ensures { IfOk result (IsPicture scene.now) }
{
    let tree = tree(alloc, scene)?;
    write(alloc, &tree)
}
