// How blocks are found.
ghost use Rattle.std.specs.Prelude.{◌≡◌, ◌+◌, ◌≤◌, [], length, map, Some};
ghost use Rattle.std.specs.List.{list_any};
ghost use Rattle.std.specs.Str.{bytes_eq};
ghost use Rattle.grammar.specs.Words.{indent};
ghost use Rattle.grammar.specs.Forms.{outline_of, size_of};
ghost use Rattle.reader.specs.Text.{block_in, entry_of, known, words_of, sized_block};
ghost use Rattle.reader.specs.Left.{line_at};
ghost use Rattle.reader.specs.Found.{block_of, blocks_of, BlockRead};

use super::{Blocks, Found};
use crate::lines::Used;
use grammar::indent_of;
use grammar::outlines::Outline;
use names::entries::Entry;
use rules::blocks::{MOST_BLOCKS, Size};
use rules::refusals::Refusal;
use stack::stack::Stack;

impl<'a> Found<'a> {
    // No block of the text; it fills memory.
    pub(crate) fn none(text: &'a [u8]) -> Found<'a> {
        Found {
            name: &text[..0],
            start: 0,
            size: Size::default(),
        }
    }

    // The block of this name and size in a line.
    fn of(line: Used<'a>, name: &'a [u8], size: Size) -> Found<'a>
        requires { indent line.bytes.now + length name.now ≤ length line.bytes.now }
        ensures { block_of result ≡ block_in (line_at line.entry) name.now size }
    {
        Found {
            name,
            start: (line.start + indent_of(line.bytes)) as u32,
            size,
        }
    }

    // The record of a block.
    pub(crate) fn entry(&self) -> Entry
        ensures { result ≡ entry_of (block_of self.now) }
    {
        Entry {
            start: self.start,
            len: self.name.len() as u32,
            size: self.size,
        }
    }
}

// Whether one of the blocks has this name.
fn is_known(found: &[Found<'_>], name: &[u8]) -> bool
    ensures { result ≡ list_any (λ f. bytes_eq f.name.now name.now) found.now }
{
    found.iter().any(|block| block.name == name)
}

impl<'a, 'b> Blocks<'a, 'b> {
    // No blocks, over that memory.
    pub(crate) fn over(memory: &'b mut [Found<'a>; MOST_BLOCKS]) -> Blocks<'a, 'b>
        ensures { blocks_of result ≡ [] }
    {
        Blocks {
            found: Stack::over(memory),
        }
    }

    // Puts the block of a line behind those that were found.
    pub(crate) fn add(&mut self, line: Used<'a>, outline: Outline<'a>) -> Result<(), Refusal>
        requires { outline_of (words_of (line_at line)) ≡ Some (outline.name.now, outline.corners) }
        ensures { BlockRead (sized_block (blocks_of self.old) (line_at line.entry) outline.entry.name.now (size_of outline.entry.corners)) (blocks_of self.old) result (blocks_of self.new) }
    {
        let Outline { name, corners } = outline;
        let size = corners.size().ok_or(Refusal::WrongVertices(line.number))?;
        if !size.fits() {
            return Err(Refusal::SideOutOfRange(line.number));
        }
        if is_known(self.found.as_slice(), name) {
            return Err(Refusal::RepeatedName(line.number));
        }
        if self.found.push(Found::of(line, name, size)).is_err() {
            return Err(Refusal::TooManyBlocks(line.number));
        }
        Ok(())
    }

    // The blocks, in line order.
    #[tactic(auto, using(crate::proofs::Finding::few_lent))]
    pub(crate) fn as_slice(&self) -> &[Found<'a>]
        ensures blocks { map block_of result.now ≡ blocks_of self.now }
        ensures few { length result.now ≤ 512 }
    {
        self.found.as_slice()
    }
}
