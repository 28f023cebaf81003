// The fields of the struct.

ghost use Rattle.std.specs.Prelude.{◌≡◌, ◌↔◌, IsTrue, codes};
ghost use Rattle.gh_ast.specs.Rules.{IsLink};
ghost use Rattle.gh_types.specs.Checks.{FieldErrors, StructErrors};
ghost use Rattle.gh_types.specs.Faults.{IsFirstOf};

use crate::fault::{Fault, earlier};
use gh_ast::Field;
use gh_base::name::Name;
use gh_base::place::Span;

/// Whether a name is that of the link's field.
fn is_next(name: &Name) -> bool
    ensures { IsTrue result ↔ (name.now ≡ codes "next") }
{
    name.bytes() == b"next".as_slice()
}

/// Whether a type is that of the link's field.
fn is_node(name: &Name) -> bool
    ensures { IsTrue result ↔ (name.now ≡ codes "Node") }
{
    name.bytes() == b"Node".as_slice()
}

/// Whether a field is the link.
fn is_link(field: &Field) -> bool
    ensures { IsTrue result ↔ IsLink field.now }
{
    is_next(&field.name.name) && is_node(&field.kind)
}

/// The error of a field; `linked` says whether an earlier field is the link.
fn in_field(field: &Field, linked: bool) -> Option<Fault>
    ensures { IsFirstOf (FieldErrors field.now linked) result }
{
    let node = is_node(&field.kind);
    let fine = !node || (is_next(&field.name.name) && !linked);
    earlier(
        Fault::unless(fine, 7, field.name.span),
        Fault::unless(node, 8, field.name.span),
    )
}

/// The first error of the struct: in its fields, or that it lacks its link.
pub fn in_struct(fields: &[Field], close: Span) -> Option<Fault>
    ensures { IsFirstOf (StructErrors fields.now close) result }
{
    let mut linked = false;
    let mut first = None;
    for field in fields {
        first = earlier(first, in_field(field, linked));
        linked |= is_link(field);
    }
    earlier(first, Fault::unless(linked, 12, close))
}
