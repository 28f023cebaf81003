//! The tree of a picture: elements in four levels, each with a name and attributes.

ghost use Rattle.std.specs.Prelude.{◌≡◌, ◌++◌, ◌∷◌, [], IfOk};
ghost use Rattle.gh_picture.specs.Words.{tag_word, key_word};

use gh_base::text::Text;
use std::alloc::{AllocError, Global};
use std::marker::Model;

/// The name of an element.
#[derive(Clone, Copy, Debug, PartialEq, Eq)]
pub enum Tag {
    Svg,
    G,
    Marker,
    Path,
    Style,
    Text,
}

impl Tag {
    /// The name as it is written.
    pub fn word(self) -> &'static [u8]
        ensures { result.now ≡ tag_word self }
    {
        match self {
            Tag::Svg => b"svg",
            Tag::G => b"g",
            Tag::Marker => b"marker",
            Tag::Path => b"path",
            Tag::Style => b"style",
            Tag::Text => b"text",
        }
    }
}

/// The name of an attribute.
#[derive(Clone, Copy, Debug, PartialEq, Eq)]
pub enum Key {
    Xmlns,
    Width,
    Height,
    ViewBox,
    Id,
    Class,
    Transform,
    D,
    X,
    Y,
    RefX,
    RefY,
    MarkerWidth,
    MarkerHeight,
    Orient,
}

impl Key {
    /// The name as it is written.
    pub fn word(self) -> &'static [u8]
        ensures { result.now ≡ key_word self }
    {
        match self {
            Key::Xmlns => b"xmlns",
            Key::Width => b"width",
            Key::Height => b"height",
            Key::ViewBox => b"viewBox",
            Key::Id => b"id",
            Key::Class => b"class",
            Key::Transform => b"transform",
            Key::D => b"d",
            Key::X => b"x",
            Key::Y => b"y",
            Key::RefX => b"refX",
            Key::RefY => b"refY",
            Key::MarkerWidth => b"markerWidth",
            Key::MarkerHeight => b"markerHeight",
            Key::Orient => b"orient",
        }
    }
}

/// A name with a value. Any bytes may be the value: it is written with its escapes.
#[derive(Debug, Drop)]
pub struct Attribute {
    pub key: Key,
    pub value: Text,
}

/// The attributes of an element. Contracts see them as a list.
#[derive(Debug, Drop)]
pub struct Attributes {
    items: Vec<Attribute>,
}

impl Model for Attributes {
    ghost use Rattle.std.specs.Prelude.{List};
    ghost use Rattle.gh_picture.specs.declared.tree.Attribute.{Attribute};

    ghost Value = { List Attribute };

    ghost view = { λ a. a.items.items };
}

impl Attributes {
    /// No attributes.
    pub fn new(alloc: Global) -> Attributes
        ensures { result ≡ [] }
    {
        Attributes {
            items: Vec::new(alloc),
        }
    }

    /// One more attribute, after the others.
    pub fn with(mut self, alloc: Global, key: Key, value: &[u8]) -> Result<Attributes, AllocError>
        ensures { IfOk result (λ a. a ≡ self ++ record { key = key; value = value.now } ∷ []) }
    {
        let mut text = Text::new(alloc);
        text.push(value)?;
        self.items.push(Attribute { key, value: text })?;
        Ok(self)
    }

    /// All attributes.
    pub fn as_slice(&self) -> &[Attribute]
        ensures { result.now ≡ self.now }
    {
        self.items.as_slice()
    }
}

/// The leaves of a group, the groups of a panel, or the panels of a picture. Contracts see them as a list.
#[derive(Debug, Drop)]
pub struct Items<T> {
    items: Vec<T>,
}

impl<T> Model for Items<T> {
    ghost use Rattle.std.specs.Prelude.{List};
    ghost use Rattle.std.specs.Coded.{coded_list};

    ghost Value = { List T };

    ghost coded = { coded_list T.code };

    ghost view = { λ l. l.items.items };
}

impl<T: Drop> Items<T> {
    /// None.
    pub fn new(alloc: Global) -> Items<T>
        ensures { result ≡ [] }
    {
        Items {
            items: Vec::new(alloc),
        }
    }

    /// Adds one after the others.
    pub fn push(&mut self, item: T) -> Result<(), AllocError>
        ensures { IfOk result (λ _. self.new ≡ self.old ++ item ∷ []) }
    {
        self.items.push(item)?;
        Ok(())
    }

    /// One more, after the others.
    pub fn with(mut self, item: T) -> Result<Items<T>, AllocError>
        ensures { IfOk result (λ l. l ≡ self ++ item ∷ []) }
    {
        self.items.push(item)?;
        Ok(self)
    }

    /// All.
    pub fn as_slice(&self) -> &[T]
        ensures { result.now ≡ self.now }
    {
        self.items.as_slice()
    }
}

/// An element with a text.
#[derive(Debug, Drop)]
pub struct Leaf {
    pub tag: Tag,
    pub attributes: Attributes,
    pub text: Text,
}

/// An element with leaves.
#[derive(Debug, Drop)]
pub struct Group {
    pub tag: Tag,
    pub attributes: Attributes,
    pub leaves: Items<Leaf>,
}

/// An element `g` with groups.
#[derive(Debug, Drop)]
pub struct Panel {
    pub attributes: Attributes,
    pub groups: Items<Group>,
}

/// An element `svg` with panels.
#[derive(Debug, Drop)]
pub struct Svg {
    pub attributes: Attributes,
    pub panels: Items<Panel>,
}
