//! How cells, variables and statements are drawn.
//!
//! A column is 100 wide and a line 100 high, so the digits of a coordinate are those of its column or
//! line, and two more.

ghost use Rattle.std.specs.Prelude.{◌≡◌, ◌++◌, IfOk, OnOk};
ghost use Rattle.std.specs.Fmt.{decimal};
ghost use Rattle.gh_picture.specs.Shapes.{role_word, change_word, point_text, place_text, leaf_of, group_of, label_of};
ghost use Rattle.gh_picture.specs.Shapes.{outline_of, place_label_of, role_label_of, stroke_text, back_text, jump_text};
ghost use Rattle.gh_picture.specs.Shapes.{arrow_of, content_label_of, class_text, across_of, down_of, apart_text};
ghost use Rattle.gh_picture.specs.Shapes.{variable_label_of};
ghost use Rattle.gh_picture.specs.Shapes as drawn;

use crate::layout::Spot;
use crate::scene::{Change, Role};
use crate::tree::{Attributes, Group, Items, Key, Leaf, Tag};
use gh_assert::heap::Cell;
use gh_assert::store::Entry;
use gh_base::text::Text;
use itoa::Buffer;
use std::alloc::{AllocError, Global};

/// Where the content of a cell leads.
#[derive(Clone, Copy, Debug, PartialEq, Eq)]
pub enum Link {
    /// To null.
    Null,
    /// To a place that has no cell.
    Lost,
    /// To the cell at the right.
    Beside,
    /// To another cell of the same line, or to itself.
    Back { to: Spot },
    /// To a cell of another line.
    Jump { to: Spot },
}

/// Where the name of a variable stands.
#[derive(Clone, Copy, Debug, PartialEq, Eq)]
pub enum Target {
    /// Above the cell to which it points, so many names above it.
    Above { spot: Spot, level: usize },
    /// Above all lines, as it points to no cell; so many names at its left.
    Apart { slot: usize },
}

impl Role {
    /// The word for a role.
    pub fn word(self) -> &'static [u8]
        ensures { result.now ≡ role_word self }
    {
        match self {
            Role::Owned => b"owned",
            Role::Framed => b"framed",
            Role::Changed => b"changed",
            Role::Leaked => b"leaked",
        }
    }
}

impl Change {
    /// The word for a change.
    pub fn word(self) -> &'static [u8]
        ensures { result.now ≡ change_word self }
    {
        match self {
            Change::Same => b"same",
            Change::Changed => b"changed",
        }
    }
}

fn push_number(out: &mut Text, number: usize) -> Result<(), AllocError>
    ensures { OnOk result (out.new ≡ out.old ++ decimal number) }
{
    let mut digits = Buffer::new();
    out.push(digits.format(number).as_bytes())
}

// Adds some text and then a point in the box of a spot.
fn push_point(
    out: &mut Text,
    lead: &[u8],
    spot: Spot,
    across: &[u8],
    down: &[u8],
) -> Result<(), AllocError>
    ensures { OnOk result (out.new ≡ out.old ++ lead.now ++ point_text spot across.now down.now) }
{
    out.push(lead)?;
    push_number(out, spot.column)?;
    out.push(across)?;
    out.push(b" ")?;
    push_number(out, spot.line)?;
    out.push(down)
}

// `translate(X Y)`
fn place_of(alloc: Global, spot: Spot, across: &[u8], down: &[u8]) -> Result<Text, AllocError>
    ensures { IfOk result (λ t. t ≡ place_text spot across.now down.now) }
{
    let mut out = Text::new(alloc);
    push_point(&mut out, b"translate(", spot, across, down)?;
    out.push(b")")?;
    Ok(out)
}

/// An element with a class and one more attribute.
pub fn leaf(
    alloc: Global,
    tag: Tag,
    class: &[u8],
    key: Key,
    value: &[u8],
    words: &[u8],
) -> Result<Leaf, AllocError>
    ensures { IfOk result (λ l. l ≡ leaf_of tag class.now key value.now words.now) }
{
    let attributes = Attributes::new(alloc)
        .with(alloc, Key::Class, class)?
        .with(alloc, key, value)?;
    let mut text = Text::new(alloc);
    text.push(words)?;
    Ok(Leaf {
        tag,
        attributes,
        text,
    })
}

// A text at a point in the box of a spot.
fn label(
    alloc: Global,
    class: &[u8],
    spot: Spot,
    across: &[u8],
    down: &[u8],
    words: &[u8],
) -> Result<Leaf, AllocError>
    ensures { IfOk result (λ l. l ≡ label_of class.now spot across.now down.now words.now) }
{
    let place = place_of(alloc, spot, across, down)?;
    leaf(
        alloc,
        Tag::Text,
        class,
        Key::Transform,
        place.bytes(),
        words,
    )
}

fn outline(alloc: Global, spot: Spot) -> Result<Leaf, AllocError>
    ensures { IfOk result (λ l. l ≡ outline_of spot) }
{
    let mut out = Text::new(alloc);
    push_point(&mut out, b"M", spot, b"14", b"34")?;
    out.push(b"h56v32h-56z")?;
    leaf(alloc, Tag::Path, b"box", Key::D, out.bytes(), b"")
}

fn place_label(alloc: Global, spot: Spot, at: u32) -> Result<Leaf, AllocError>
    ensures { IfOk result (λ l. l ≡ place_label_of spot at) }
{
    let mut digits = Buffer::new();
    label(
        alloc,
        b"place",
        spot,
        b"42",
        b"55",
        digits.format(at).as_bytes(),
    )
}

fn role_label(alloc: Global, spot: Spot, role: Role) -> Result<Leaf, AllocError>
    ensures { IfOk result (λ l. l ≡ role_label_of spot role) }
{
    label(alloc, b"role", spot, b"44", b"78", role.word())
}

// The path from below a box to below another.
fn back(alloc: Global, spot: Spot, to: Spot) -> Result<Text, AllocError>
    ensures { IfOk result (λ t. t ≡ back_text spot to) }
{
    let mut out = Text::new(alloc);
    push_point(&mut out, b"M", spot, b"63", b"66")?;
    push_point(&mut out, b"C", spot, b"63", b"99")?;
    push_point(&mut out, b" ", to, b"19", b"99")?;
    push_point(&mut out, b" ", to, b"19", b"71")?;
    Ok(out)
}

// The path from the right of a box to below another.
fn jump(alloc: Global, spot: Spot, to: Spot) -> Result<Text, AllocError>
    ensures { IfOk result (λ t. t ≡ jump_text spot to) }
{
    let mut out = Text::new(alloc);
    push_point(&mut out, b"M", spot, b"70", b"50")?;
    push_point(&mut out, b"C", spot, b"99", b"50")?;
    push_point(&mut out, b" ", to, b"65", b"99")?;
    push_point(&mut out, b" ", to, b"65", b"71")?;
    Ok(out)
}

// The path from the right of a box, and what follows.
fn stroke(alloc: Global, spot: Spot, rest: &[u8]) -> Result<Text, AllocError>
    ensures { IfOk result (λ t. t ≡ stroke_text spot rest.now) }
{
    let mut out = Text::new(alloc);
    push_point(&mut out, b"M", spot, b"70", b"50")?;
    out.push(rest)?;
    Ok(out)
}

fn arrow(alloc: Global, spot: Spot, link: Link) -> Result<Leaf, AllocError>
    ensures { IfOk result (λ l. l ≡ arrow_of spot link) }
{
    match link {
        Link::Null => {
            let out = stroke(alloc, spot, b"h16v8m-8 0h16m-13 4h10m-7 4h4")?;
            leaf(alloc, Tag::Path, b"null", Key::D, out.bytes(), b"")
        }
        Link::Lost => {
            let out = stroke(alloc, spot, b"h16")?;
            leaf(alloc, Tag::Path, b"lost", Key::D, out.bytes(), b"")
        }
        Link::Beside => {
            let out = stroke(alloc, spot, b"h38")?;
            leaf(alloc, Tag::Path, b"next", Key::D, out.bytes(), b"")
        }
        Link::Back { to } => {
            let out = back(alloc, spot, to)?;
            leaf(alloc, Tag::Path, b"next", Key::D, out.bytes(), b"")
        }
        Link::Jump { to } => {
            let out = jump(alloc, spot, to)?;
            leaf(alloc, Tag::Path, b"next", Key::D, out.bytes(), b"")
        }
    }
}

// The place to which a cell leads where there is no cell.
fn content_label(alloc: Global, spot: Spot, link: Link, to: u32) -> Result<Leaf, AllocError>
    ensures { IfOk result (λ l. l ≡ content_label_of spot link to) }
{
    let mut digits = Buffer::new();
    match link {
        Link::Lost => label(
            alloc,
            b"end",
            spot,
            b"96",
            b"54",
            digits.format(to).as_bytes(),
        ),
        _ => label(alloc, b"end", spot, b"96", b"54", b""),
    }
}

// A class of two words.
fn class(alloc: Global, kind: &[u8], mark: &[u8]) -> Result<Text, AllocError>
    ensures { IfOk result (λ t. t ≡ class_text kind.now mark.now) }
{
    let mut class = Text::new(alloc);
    class.push(kind)?;
    class.push(b" ")?;
    class.push(mark)?;
    Ok(class)
}

/// An element `g` with a class.
pub fn group(alloc: Global, class: &[u8], leaves: Items<Leaf>) -> Result<Group, AllocError>
    ensures { IfOk result (λ g. g ≡ group_of class.now leaves) }
{
    let attributes = Attributes::new(alloc).with(alloc, Key::Class, class)?;
    Ok(Group {
        tag: Tag::G,
        attributes,
        leaves,
    })
}

/// The box of a cell, with its place, its role and the arrow to what it leads to.
pub fn cell_group(
    alloc: Global,
    cell: Cell,
    role: Role,
    spot: Spot,
    link: Link,
) -> Result<Group, AllocError>
    ensures { IfOk result (λ g. g ≡ drawn.cell_group cell role spot link) }
{
    let leaves = Items::new(alloc)
        .with(outline(alloc, spot)?)?
        .with(place_label(alloc, spot, cell.at)?)?
        .with(role_label(alloc, spot, role)?)?
        .with(arrow(alloc, spot, link)?)?
        .with(content_label(alloc, spot, link, cell.to)?)?;
    let class = class(alloc, b"cell", role.word())?;
    group(alloc, class.bytes(), leaves)
}

// How far to the right a name stands that has so many below it.
fn across(level: usize) -> &'static [u8]
    ensures { result.now ≡ across_of level }
{
    if level < 3 { b"42" } else { b"92" }
}

// How far down it stands.
fn down(level: usize) -> &'static [u8]
    ensures { result.now ≡ down_of level }
{
    match level {
        0 | 3 => b"30",
        1 | 4 => b"18",
        _ => b"06",
    }
}

// The name of a variable that points to no cell, with its value.
fn apart(alloc: Global, entry: &Entry) -> Result<Text, AllocError>
    ensures { IfOk result (λ t. t ≡ apart_text entry.now) }
{
    let mut out = Text::new(alloc);
    out.push(entry.name.bytes())?;
    if entry.value == 0 {
        out.push(b" = null")?;
    } else {
        out.push(b" = ")?;
        push_number(&mut out, entry.value as usize)?;
    }
    Ok(out)
}

fn variable_label(alloc: Global, entry: &Entry, target: Target) -> Result<Leaf, AllocError>
    ensures { IfOk result (λ l. l ≡ variable_label_of entry.now target) }
{
    match target {
        Target::Above { spot, level } => {
            label(
                alloc,
                b"name",
                spot,
                across(level),
                down(level),
                entry.name.bytes(),
            )
        }
        Target::Apart { slot } => {
            let words = apart(alloc, entry)?;
            let spot = Spot {
                line: 0,
                column: slot,
            };
            label(alloc, b"apart", spot, b"14", b"66", words.bytes())
        }
    }
}

/// The name of a variable above the box to which it points; with its value where it points to none.
pub fn variable_group(
    alloc: Global,
    entry: &Entry,
    change: Change,
    target: Target,
) -> Result<Group, AllocError>
    ensures { IfOk result (λ g. g ≡ drawn.variable_group entry.now change target) }
{
    let leaves = Items::new(alloc).with(variable_label(alloc, entry, target)?)?;
    let class = class(alloc, b"variable", change.word())?;
    group(alloc, class.bytes(), leaves)
}

/// What stands above a row.
pub fn caption_group(alloc: Global, statement: &[u8], note: &[u8]) -> Result<Group, AllocError>
    ensures { IfOk result (λ g. g ≡ drawn.caption_group statement.now note.now) }
{
    let leaves = Items::new(alloc)
        .with(leaf(alloc, Tag::Path, b"rule", Key::D, b"M4 2h380", b"")?)?
        .with(leaf(
            alloc,
            Tag::Text,
            b"statement",
            Key::Transform,
            b"translate(14 20)",
            statement,
        )?)?
        .with(leaf(
            alloc,
            Tag::Text,
            b"note",
            Key::Transform,
            b"translate(14 38)",
            note,
        )?)?;
    group(alloc, b"caption", leaves)
}
