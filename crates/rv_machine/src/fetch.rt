// Fetching: the halfwords that the decoder gets.
ghost use Rattle.std.specs.Prelude.{◌≡◌, ℕ, List};

use crate::machine::Machine;
use rv_memory::rights::Access;

impl<'a> Machine<'a> {
    ghost use Rattle.rv_code.specs.machine.Step.{halfword, fetched};
    ghost use Rattle.rv_machine.specs.State.{state_of};

    /// The halfword at the pc, and the one after it if the first begins a longer instruction. `None` if the pc is odd,
    /// or if the bytes may not be executed.
    pub(crate) fn fetch(&self) -> Option<(u16, Option<u16>)>
        ensures { (input : List ℕ) → result ≡ fetched (state_of self.now input) }
    {
        if self.pc % 2 == 0 {
            if let Some((half, next)) = self.memory.code_halves(self.pc) {
                if half % 4 != 3 {
                    return Some((half, None));
                }
                return Some((half, Some(next)));
            }
        }
        self.fetch_anywhere()
    }

    // Fetches byte by byte, from memory that may have been written.
    fn fetch_anywhere(&self) -> Option<(u16, Option<u16>)>
        ensures { (input : List ℕ) → result ≡ fetched (state_of self.now input) }
    {
        if self.pc % 2 != 0 || !self.memory.may_all(Access::Execute, self.pc, 2) {
            return None;
        }
        let half = self.halfword(self.pc);
        if half % 4 != 3 {
            return Some((half, None));
        }
        let next = self.pc.wrapping_add(2);
        if !self.memory.may_all(Access::Execute, next, 2) {
            return None;
        }
        Some((half, Some(self.halfword(next))))
    }

    fn halfword(&self, address: u64) -> u16
        ensures { (input : List ℕ) → result ≡ halfword (state_of self.now input) address }
    {
        self.memory.number(address, 2) as u16
    }
}
