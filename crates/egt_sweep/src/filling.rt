//! The means by which a part of a class's table is filled.
ghost use Rattle.std.specs.Prelude.{◌≡◌, IfSome};
ghost use Rattle.egt_sweep.specs.FillPrelude.{IsFilling};

use egt_check::Library;
use egt_check::move_scores::Children;
use egt_check::part::Part;
use egt_check::table_judging::children_of;
use egt_class::Class;
use egt_index::{ShelfMen, has_target, last_digits, shelf_men, size};

/// A part of the table of a class with two men beside the kings, and the tables of its children.
#[derive(Drop)]
pub(crate) struct Filling<'t> {
    pub(crate) library: &'t Library,
    pub(crate) class: Class,
    pub(crate) part: Part,
    /// The men beside the kings, wherever these stand.
    pub(crate) men: ShelfMen,
    pub(crate) children: Children<'t>,
    /// How many shelves have no target, and as many have one; 0 in a class without targets.
    pub(crate) half: u32,
}

/// What the part of the class's table is filled by. `None` of another class, and where the table of a child is missing
/// or does not tell its entries by bytes.
pub(crate) fn filling_of<'t>(library: &'t Library, class: Class, part: Part) -> Option<Filling<'t>>
    ensures filling { IfSome result IsFilling }
    ensures class { IfSome result (λ f. f.class ≡ class) }
    ensures part { IfSome result (λ f. f.part ≡ part) }
    ensures library { IfSome result (λ f. f.library.now ≡ library.now) }
{
    let men = shelf_men(class, 0)?;
    let _number = class.number();
    let children = children_of(library, class, &men, part)?;
    let shelves = size(class) / (2 * last_digits(class));
    let half = if has_target(class) { shelves / 2 } else { 0 };
    Some(Filling {
        library,
        class,
        part,
        men,
        children,
        half,
    })
}
