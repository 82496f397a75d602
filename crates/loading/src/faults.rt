// The first block at fault of each list.
ghost use Rattle.std.specs.Prelude.{◌≡◌, not, ◌&&◌, length, position};
ghost use Rattle.rules.specs.Letters.{letter_of};
ghost use Rattle.rules.specs.Plans.{size_fits};
ghost use Rattle.rules.specs.Loads.{is_some, link_fits};

use rules::blocks::{Children, Letter, NONE, Size};

// The first block with a side out of range.
pub(crate) fn first_wrong_size(sizes: &[Size]) -> Option<usize>
    ensures { result ≡ position (λ size. not (size_fits size)) sizes.now }
{
    sizes.iter().position(|size| !size.fits())
}

// The first block whose letter is none of the five.
pub(crate) fn first_wrong_letter(letters: &[u8]) -> Option<usize>
    ensures { result ≡ position (λ byte. not (is_some (letter_of byte))) letters.now }
{
    letters
        .iter()
        .position(|byte| Letter::try_from(*byte).is_err())
}

fn link_fits(link: u16, blocks: usize) -> bool
    ensures { result ≡ link_fits blocks link }
{
    (link as usize) < blocks || link == NONE
}

fn children_fit(pair: Children, blocks: usize) -> bool
    ensures { result ≡ (link_fits blocks pair.left && link_fits blocks pair.right) }
{
    link_fits(pair.left, blocks) && link_fits(pair.right, blocks)
}

// The first block with a child number that is neither a block's nor NONE.
pub(crate) fn first_wrong_children(children: &[Children]) -> Option<usize>
    ensures { result ≡ position (λ pair. not (link_fits (length children.now) pair.left && link_fits (length children.now) pair.right)) children.now }
{
    let blocks = children.len();
    children
        .iter()
        .position(|pair| !children_fit(*pair, blocks))
}
