// What a register can be asked, and told.
ghost use Rattle.std.specs.Prelude.{◌≡◌, ◌≤◌, true, false, length, is_some};
ghost use Rattle.std.specs.Option.{option_map};
ghost use Rattle.std.specs.List.{slice_get, position};
ghost use Rattle.energy.specs.PartyCodes.{code_text};
ghost use Rattle.register.specs.Limits.{mw_within};
ghost use Rattle.register.specs.Parties.{no_parties, on, number_in, placed, found, changed, has_room, joined_by, entitled_at};
ghost use Rattle.register.specs.Registers.{parties_of, FoundAgain};
ghost use Rattle.register.specs.Registration.{registration, assignment};
ghost use Rattle.register.specs.Rolls.{party_view, roll_of, views_of, has_code};

use crate::limits::{LARGEST_MW, MOST_PARTIES, up_to};
use crate::party::Party;
use crate::refusal::{AssignmentRefusal, RegistrationRefusal};
use crate::register::Register;
use crate::registered::Registered;
use arrayvec::ArrayVec;
use energy::{Mw, PartyCode, Side};

impl Register {
    /// A register with no parties.
    pub fn empty() -> Register
        ensures { parties_of result ≡ no_parties }
    {
        Register {
            northern: ArrayVec::new(),
            southern: ArrayVec::new(),
        }
    }

    /// Takes all parties out.
    pub fn clear(&mut self)
        ensures { parties_of self.new ≡ no_parties }
    {
        *self = Register::empty();
    }

    /// How many parties a side has.
    pub fn count(&self, side: Side) -> usize
        ensures { result ≡ length (on side (parties_of self.now)) }
    {
        self.parties(side).len()
    }

    /// The code of the party with a number on a side; the party is found again by it.
    pub fn code(&self, side: Side, number: u8) -> Option<PartyCode>
        ensures answer { option_map code_text result ≡ option_map (λ p. p.code) (slice_get (on side (parties_of self.now)) number) }
        ensures back { FoundAgain side number (parties_of self.now) result }
    {
        Some(self.party(side, number)?.code)
    }

    /// The entitlement of the party with a number on a side.
    pub fn entitlement(&self, side: Side, number: u8) -> Option<Mw>
        ensures { result ≡ option_map (λ p. p.entitlement) (slice_get (on side (parties_of self.now)) number) }
    {
        Some(self.party(side, number)?.entitlement)
    }

    /// The number of the party with a code, where it is registered on a side.
    #[tactic(auto, using(crate::proofs::Scanning::scanned))]
    pub fn find_on(&self, side: Side, code: PartyCode) -> Option<u8>
        ensures { result ≡ number_in (code_text code) (on side (parties_of self.now)) }
    {
        let number = position_of(self.parties(side), code)?;
        Some(number as u8)
    }

    /// Where the party with a code is registered.
    pub fn find(&self, code: PartyCode) -> Option<Registered>
        ensures { result ≡ found (code_text code) (parties_of self.now) }
    {
        self.place_on(Side::Northern, code)
            .or_else(|| self.place_on(Side::Southern, code))
    }

    /// Registers a party behind the others of its side, and tells its number.
    pub fn register(&mut self, side: Side, text: &[u8]) -> Result<u8, RegistrationRefusal>
        ensures { (parties_of self.new, result) ≡ registration side text.now (parties_of self.old) }
    {
        let code = PartyCode::read(text).ok_or(RegistrationRefusal::MalformedCode)?;
        if self.is_taken(code) {
            return Err(RegistrationRefusal::CodeTaken);
        }
        if !self.has_room(side) {
            return Err(RegistrationRefusal::SideFull);
        }
        Ok(self.seat(side, code))
    }

    /// Gives the party with a code its entitlement, in the place of any that it had.
    pub fn assign(&mut self, code: PartyCode, mw: Mw) -> Result<(), AssignmentRefusal>
        ensures { (parties_of self.new, result) ≡ assignment (code_text code) mw (parties_of self.old) }
    {
        let place = self.find(code).ok_or(AssignmentRefusal::NotRegistered)?;
        let mw = up_to(LARGEST_MW, mw)?;
        self.entitle(place, mw);
        Ok(())
    }

    /// The place of the party with a code, where it is registered on a side.
    fn place_on(&self, side: Side, code: PartyCode) -> Option<Registered>
        ensures { result ≡ option_map (placed side) (number_in (code_text code) (on side (parties_of self.now))) }
    {
        let number = self.find_on(side, code)?;
        Some(Registered { side, number })
    }

    /// Whether a party of either side has a code.
    fn is_taken(&self, code: PartyCode) -> bool
        ensures { result ≡ is_some (found (code_text code) (parties_of self.now)) }
    {
        self.find(code).is_some()
    }

    /// Whether a side takes one more party.
    fn has_room(&self, side: Side) -> bool
        ensures { result ≡ has_room (on side (parties_of self.now)) }
    {
        self.count(side) < MOST_PARTIES
    }

    // Here and in `entitle` a side's field is written in place: of a lent side the facts of both would be asked at the write.
    /// Puts a party behind the others of its side.
    fn seat(&mut self, side: Side, code: PartyCode) -> u8
        requires new { is_some (found (code_text code) (parties_of self.old)) ≡ false }
        requires room { has_room (on side (parties_of self.old)) ≡ true }
        ensures parties { parties_of self.new ≡ changed side (joined_by (code_text code)) (parties_of self.old) }
        ensures number { result ≡ length (on side (parties_of self.old)) }
    {
        let number = self.count(side) as u8;
        match side {
            Side::Northern => self.northern.push(Party::new(code)),
            Side::Southern => self.southern.push(Party::new(code)),
        }
        number
    }

    /// Gives the party at a place its entitlement.
    fn entitle(&mut self, place: Registered, mw: Mw)
        requires within { mw_within mw ≡ true }
        ensures { parties_of self.new ≡ changed place.side (entitled_at place.number mw) (parties_of self.old) }
    {
        let number = place.number as usize;
        match place.side {
            Side::Northern => give(&mut self.northern, number, mw),
            Side::Southern => give(&mut self.southern, number, mw),
        }
    }

    /// The party with a number on a side.
    fn party(&self, side: Side, number: u8) -> Option<Party>
        ensures { option_map party_view result ≡ slice_get (on side (parties_of self.now)) number }
    {
        self.parties(side).get(number as usize).copied()
    }

    /// The parties of a side.
    fn parties(&self, side: Side) -> &[Party]
        ensures parties { views_of result.now ≡ on side (parties_of self.now) }
        ensures few { length result.now ≤ 16 }
    {
        match side {
            Side::Northern => self.northern.as_slice(),
            Side::Southern => self.southern.as_slice(),
        }
    }
}

/// The position of the party with a code.
fn position_of(parties: &[Party], code: PartyCode) -> Option<usize>
    ensures { result ≡ position (has_code (code_text code)) parties.now }
{
    parties.iter().position(|party| party.has_code(code))
}

/// Gives the party at a position its entitlement.
#[tactic(auto, using(crate::proofs::Giving::given_at))]
fn give(parties: &mut ArrayVec<Party, MOST_PARTIES>, position: usize, mw: Mw)
    ensures { roll_of parties.new ≡ entitled_at position mw (roll_of parties.old) }
{
    if let Some(party) = parties.get_mut(position) {
        party.entitlement = mw;
    }
}
