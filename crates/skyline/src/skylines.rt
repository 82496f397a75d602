// The interface of a skyline. What its calls answer stands in the rules, in Skylines.antt; who writes a skyline gives its
// meaning, and meets these contracts.
ghost use Rattle.std.specs.Prelude.{◌≡◌};
ghost use Rattle.rules.specs.Skylines.{Sky, Cleared, Highest, Raise};

use rules::refusals::Refusal;

// The most columns and the most raises that a skyline has, and the greatest height of a column.
pub const MOST_COLUMNS: u32 = 67_108_864;

pub const MOST_RAISES: u32 = 65_536;

pub const GREATEST_HEIGHT: u32 = 134_217_728;

// highest and raise are not provided over smaller methods: authors would owe those too, and a raise of one's own may promise more,
// as that of `Columns` does (`behind`, `loan`).
pub trait Skyline {
    ghost meaning: { Self → Sky };

    // C, the number of columns.
    fn columns(&self) -> u32
        ensures { result ≡ (meaning self.now).columns };

    // R, the number of raises when cleared.
    fn raises(&self) -> u32
        ensures { result ≡ (meaning self.now).raises };

    // r, the number of raises left.
    fn raises_left(&self) -> u32
        ensures { result ≡ (meaning self.now).left };

    // Makes every height 0 and r equal to R.
    fn clear(&mut self)
        ensures { Cleared (meaning self.old) (meaning self.new) };

    // The largest height of columns a to b - 1.
    fn highest(&self, a: u32, b: u32) -> Result<u32, Refusal>
        ensures { Highest (meaning self.now) a b result };

    // Gives columns a to b - 1 the height h, and lowers r by 1.
    fn raise(&mut self, a: u32, b: u32, h: u32) -> Result<(), Refusal>
        ensures { Raise (meaning self.old) (meaning self.new) a b h result };
}
