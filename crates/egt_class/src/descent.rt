//! Which classes a capture or a promotion leads to.
ghost use Rattle.std.specs.Prelude.{◌≡◌, ◌<◌, ◌≤◌, ◌+◌};
ghost use Rattle.egt_class.specs.Prelude.{children_of, listed, child_at};

use crate::class::Class;
use arrayvec::ArrayVec;

/// The numbers of the first class's children, then of the second's and so on.
static CHILDREN: [u8; 111] = [
    0, 0, 0, 0, 0, 1, 2, 3, 4, 1, 1, 2, 1, 3, 1, 4, 2, 2, 3, 2, 4, 3, 3, 4, 4, 1, 1, 2, 1, 3, 1, 4,
    2, 2, 3, 2, 4, 3, 3, 4, 4, 1, 5, 6, 7, 8, 9, 2, 5, 7, 10, 11, 12, 3, 5, 8, 11, 13, 14, 4, 5, 9,
    12, 14, 15, 1, 2, 3, 4, 5, 16, 17, 18, 19, 1, 2, 3, 4, 5, 17, 20, 21, 22, 1, 2, 3, 4, 5, 18,
    21, 23, 24, 1, 2, 3, 4, 5, 19, 22, 24, 25, 5, 26, 27, 28, 29, 5, 30, 31, 32, 33,
];

/// Where each class's children begin in `CHILDREN`, and where the last class's end.
static STARTS: [usize; 37] = [
    0, 0, 1, 2, 3, 4, 9, 10, 12, 14, 16, 17, 19, 21, 22, 24, 25, 26, 28, 30, 32, 33, 35, 37, 38,
    40, 41, 47, 53, 59, 65, 74, 83, 92, 101, 106, 111,
];

/// The place of the class's first child in `CHILDREN`, and the place after its last.
fn span(class: Class) -> (usize, usize)
    ensures all { listed result.0 result.1 ≡ children_of class }
    ensures order { result.0 ≤ result.1 }
    ensures end { result.1 ≤ 111 }
    ensures few { result.1 ≤ result.0 + 9 }
{
    let number = usize::from(class.number());
    (STARTS[number], STARTS[number + 1])
}

/// The class at a place in `CHILDREN`.
fn child(at: usize) -> Class
    requires { at < 111 }
    ensures { result ≡ child_at at }
{
    let number = CHILDREN[at];
    Class::at(number)
}

/// The classes other than this one that a legal move leads to: by a capture, a promotion or both. They ascend, and all
/// have smaller numbers.
pub fn children(class: Class) -> ArrayVec<Class, 9>
    ensures { result.items ≡ children_of class }
{
    let mut children = ArrayVec::new();
    let (start, end) = span(class);
    for at in start..end {
        children.push(child(at));
    }
    children
}
