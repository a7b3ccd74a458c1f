// The path of a file while the tree is walked: two numbers for each element, where its key begins and ends.
ghost use Rattle.std.specs.Prelude.{◌≡◌, ◌<◌, length};
ghost use Rattle.filetree.specs.Tree.{max_elements};
ghost use Rattle.filetree.specs.Path.{path_size, set_element};

use crate::count::ELEMENTS;

// Two numbers for each element that a path may have.
pub const PATH: usize = 2 * ELEMENTS;

// Element `depth` of the path is the key start..end.
pub fn set_element(path: &mut [usize], depth: usize, start: usize, end: usize)
    requires { (length path.old ≡ path_size) × (depth < max_elements) }
    ensures { path.new ≡ set_element path.old depth start end }
{
    path[2 * depth] = start;
    path[2 * depth + 1] = end;
}
