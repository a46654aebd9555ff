//! What holds of the changes of a board: the contract of a function that does nothing.

ghost use Rattle.std.specs.Prelude.{◌≡◌, ◌<◌, ℕ, List, length};
ghost use Rattle.loan_board.specs.Loans.{loan_at, with_loan};
ghost use Rattle.loan_board.specs.declared.board.Loan.{Loan};

/// A change is of one place: what is kept there changes so, what is kept of every other place stays, and no place comes
/// or goes.
pub fn a_change_is_of_one_place()
    ensures changed { (loans : List Loan) (place : ℕ) (change : Loan → Loan) → place < length loans
        → loan_at (with_loan loans place change) place ≡ change (loan_at loans place) }
    ensures others { (loans : List Loan) (place other : ℕ) (change : Loan → Loan) → ¬ (other ≡ place)
        → loan_at (with_loan loans place change) other ≡ loan_at loans other }
    ensures places { (loans : List Loan) (place : ℕ) (change : Loan → Loan)
        → length (with_loan loans place change) ≡ length loans }
{}
