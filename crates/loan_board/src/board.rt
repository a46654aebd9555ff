//! The board and its calls.

ghost use Rattle.std.specs.Prelude.{◌≡◌, ◌<◌, ◌^◌, ◌==◌, true, None, is_some, length};

use fixed_num::{StoredValue, Value};
use std::marker::Model;

/// What the board keeps of an interface.
#[derive(Clone, Copy, Debug)]
pub struct Loan {
    /// What the interface holds.
    pub value: StoredValue,
    /// The serial of the active controller that claims it; none where nobody does.
    pub owner: Option<u32>,
    /// Whether it is a command interface or a reference, which alone can be claimed; otherwise it is a state interface.
    pub is_command: bool,
    /// Whether its component is inactive or active, or the controller that exports it active.
    pub is_available: bool,
}

/// What is kept of each interface of a description, by place. Contracts see the list of it.
#[derive(Debug, Drop)]
pub struct Board {
    pub(crate) loans: Vec<Loan>,
}

impl Model for Board {
    ghost use Rattle.std.specs.Prelude.{List};
    ghost use Rattle.loan_board.specs.declared.board.Loan.{Loan as Kept};

    ghost Value = { List Kept };

    ghost use Rattle.loan_board.specs.Loans.{IsBoard};

    ghost view = { λ b. b.loans.items };

    ghost invariant = { λ b. IsBoard b.loans.items };
}

// What is read of a place.
impl Board {
    ghost use Rattle.loan_board.specs.Loans.{loan_at, IsSound};

    /// What is kept of every interface, by place.
    pub fn loans(&self) -> &[Loan]
        ensures { result.now ≡ self.now }
    {
        self.loans.as_slice()
    }

    /// How many interfaces there are.
    pub fn len(&self) -> u32
        ensures count { result ≡ length self.now }
        ensures few { length self.now < 2 ^ 32 }
    {
        self.loans.len() as u32
    }

    /// Whether there is none.
    pub fn is_empty(&self) -> bool
        ensures { result ≡ (length self.now == 0) }
    {
        self.loans.is_empty()
    }

    /// Whether the interface is available.
    pub fn available(&self, place: u32) -> bool
        requires { place < length self.now }
        ensures { result ≡ (loan_at self.now place).is_available }
    {
        self.loans[place as usize].is_available
    }

    /// The serial of the controller that claims the interface. One that is claimed is a command interface or a
    /// reference, and available.
    #[tactic(auto, using(crate::proofs::BoardLemmas::sound_at))]
    pub fn owner(&self, place: u32) -> Option<u32>
        requires { place < length self.now }
        ensures owner { result ≡ (loan_at self.now place).owner }
        ensures sound { IsSound (loan_at self.now place) }
    {
        self.loans[place as usize].owner
    }

    /// What the interface holds.
    pub fn get(&self, place: u32) -> Value
        requires { place < length self.now }
        ensures { result ≡ (loan_at self.now place).value }
    {
        self.loans[place as usize].value.get()
    }
}

// What is changed at a place. None of these calls takes memory, and each leaves every other place as it was.
impl Board {
    ghost use Rattle.loan_board.specs.Loans.{loan_at, with_loan, IsSound, set, claimed};
    ghost use Rattle.loan_board.specs.Loans.{released, made_available, lent, CanBeClaimed};

    /// The interface holds this value.
    #[tactic(auto, using(crate::proofs::BoardLemmas::changes))]
    pub fn set(&mut self, place: u32, value: Value)
        requires { place < length self.old }
        ensures { self.new ≡ with_loan self.old place (set value) }
    {
        self.loans[place as usize].value = StoredValue::of(value);
    }

    /// The controller of this serial claims the interface: a command interface or a reference that is free and
    /// available.
    #[tactic(auto, using(crate::proofs::BoardLemmas::changes))]
    pub fn claim(&mut self, place: u32, serial: u32)
        requires place { place < length self.old }
        requires free { CanBeClaimed (loan_at self.old place) }
        ensures { self.new ≡ with_loan self.old place (claimed serial) }
    {
        self.loans[place as usize].owner = Some(serial);
    }

    /// Nobody claims the interface any more, and it becomes Unset.
    #[tactic(auto, using(crate::proofs::BoardLemmas::changes))]
    pub fn release(&mut self, place: u32)
        requires place { place < length self.old }
        requires owned { is_some (loan_at self.old place).owner ≡ true }
        ensures { self.new ≡ with_loan self.old place released }
    {
        let loan = &mut self.loans[place as usize];
        loan.owner = None;
        loan.value = StoredValue::of(Value::Unset);
    }

    /// The interface, which nobody claims, becomes available, or else unavailable and Unset.
    #[tactic(auto, using(crate::proofs::BoardLemmas::changes))]
    pub fn set_available(&mut self, place: u32, yes: bool)
        requires place { place < length self.old }
        requires free { (loan_at self.old place).owner ≡ None }
        ensures { self.new ≡ with_loan self.old place (made_available yes) }
    {
        let loan = &mut self.loans[place as usize];
        let value = if yes { loan.value.get() } else { Value::Unset };
        loan.is_available = yes;
        loan.value = StoredValue::of(value);
    }

    /// The controller of this serial has the interface, or nobody, whoever had it; it is available or not; and it keeps
    /// what it holds where it is said so, or else becomes Unset. One that somebody has is a command interface or a
    /// reference, and available.
    #[tactic(auto, using(crate::proofs::BoardLemmas::changes))]
    pub fn lend(&mut self, place: u32, owner: Option<u32>, is_available: bool, keeps: bool)
        requires place { place < length self.old }
        requires sound { IsSound (lent owner is_available keeps (loan_at self.old place)) }
        ensures { self.new ≡ with_loan self.old place (lent owner is_available keeps) }
    {
        let loan = &mut self.loans[place as usize];
        let value = if keeps {
            loan.value.get()
        } else {
            Value::Unset
        };
        *loan = Loan {
            value: StoredValue::of(value),
            owner,
            is_command: loan.is_command,
            is_available,
        };
    }
}
