// The code of a party. The struct stands alone: what is said of it elsewhere names it.
ghost use Rattle.std.specs.Prelude.{◌≡◌, true};
ghost use Rattle.energy.specs.Codes.{well_formed, first_four};

mod calls;

/// A party's code: four characters, each A to Z or 0 to 9.
#[derive(Clone, Copy, PartialEq, Eq, Debug)]
pub struct PartyCode {
    chars: [u8; 4],
    ghost sound: { well_formed (first_four chars) ≡ true },
}
