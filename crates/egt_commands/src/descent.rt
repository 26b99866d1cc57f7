//! The classes that play can lead to.
ghost use Rattle.std.specs.Prelude.{◌↔◌, ◌<◌, ◌⊎◌, ℕ};
ghost use Rattle.egt_commands.specs.Prelude.{Contains, children_of, Descends, IsMarked};

use egt_class::laws::children_have_smaller_numbers;
use egt_class::{Class, children};

/// Marks the children of a class.
fn mark_children(marks: &mut [bool; 36], class: Class)
    ensures { (d : ℕ) → IsMarked marks.new d ↔ (IsMarked marks.old d ⊎ Contains (children_of class) d) }
{
    let children = children(class);
    for child in children.as_slice() {
        marks[usize::from(child.number())] = true;
    }
}

/// For each class, by number, whether captures and promotions, one after another, lead from this class to it.
pub fn descendants(class: Class) -> [bool; 36]
    ensures { (d : ℕ) → IsMarked result d ↔ Descends class d }
{
    children_have_smaller_numbers();
    let mut marks = [false; 36];
    mark_children(&mut marks, class);
    let mut above = class.number();
    while above > 0 {
        above -= 1;
        if marks[usize::from(above)] {
            mark_children(&mut marks, Class::at(above));
        }
    }
    marks
}
