//! What is told of the banks of a board, one by one.

ghost use Rattle.std.specs.Prelude.{◌≡◌, ◌<◌, length, slice_get, Some, option_map};

use crate::parts::Parts;
use board_plan::BankDecl;
use ghes_block::Slot;
use reri_bank::Bank;
use reri_fields::Phase;

impl Parts {
    /// How many banks there are.
    pub fn bank_count(&self) -> u8
        ensures { result ≡ length self.now.banks.items }
    {
        self.banks.len() as u8
    }

    /// What the plan says of a bank.
    pub fn bank_decl(&self, bank: u8) -> &BankDecl
        requires { bank < length self.now.banks.items }
        ensures { slice_get self.now.decls.items bank ≡ Some result.now }
    {
        &self.decls[bank as usize]
    }

    /// The records of a bank.
    pub fn records(&self, bank: u8) -> &Bank
        requires { bank < length self.now.banks.items }
        ensures { option_map (λ b. b.bank) (slice_get self.now.banks.items bank) ≡ Some result.now }
    {
        self.banks[bank as usize].bank()
    }

    /// The slot of a bank.
    pub fn slot(&self, bank: u8) -> &Slot
        requires { bank < length self.now.banks.items }
        ensures { option_map (λ b. b.slot) (slice_get self.now.banks.items bank) ≡ Some result.now }
    {
        self.banks[bank as usize].slot()
    }

    /// The phase that the next step of a bank's drain takes, and the record that the drain has taken, 0 where it has
    /// none. None comes exactly where no drain is under way.
    pub fn phase(&self, bank: u8) -> Option<(Phase, u8)>
        requires { bank < length self.now.banks.items }
        ensures { option_map (λ b. option_map (λ d. (d.phase, d.rec)) b.drain) (slice_get self.now.banks.items bank)
            ≡ Some result }
    {
        self.banks[bank as usize].drain().phase()
    }
}
