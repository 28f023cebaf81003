//! Laws of pictures.

ghost use Rattle.gh_picture.specs.Elements.{TreesAreElements};
ghost use Rattle.gh_picture.specs.Shown.{PanelsShowEach};

/// The text of each tree is one well-formed element.
pub fn trees_are_elements()
    ensures { TreesAreElements }
{}

/// The panel of a row shows each cell of its heap and each variable of its store once, in order.
pub fn panels_show_each()
    ensures { PanelsShowEach }
{}
