//! Laws of order: each is the contract of a function that does nothing.

ghost use Rattle.std.specs.Prelude.{◌≡◌, ◌≢◌, ℕ, suc, ◌<◌, ◌&&◌, true, false, if◌then◌else◌};
ghost use Rattle.std.specs.Prelude.{List, length, map, None, All, AllPairs, IsPermutation};
ghost use Rattle.cm_document.specs.Links.{first_in_loop};
ghost use Rattle.cm_document.specs.declared.description.CtlDesc.{CtlDesc};
ghost use Rattle.cm_model.specs.Order.{Places, precedes_at, places_of, greatest_below};
ghost use Rattle.cm_model.specs.Order.{depth, height, in_order, run_order};
ghost use Rattle.cm_model.specs.declared.member.Member.{Member};
ghost use Rattle.chain_order.specs.Laws.{GoesBefore, ordered};

/// The order of updates has each of these controllers once and no other, and a run order is their serials in it.
pub fn an_order_has_each_member_once()
    ensures once { (cs : List CtlDesc) (ms : List Member) → IsPermutation ms (ordered cs ms) }
    ensures serials { (cs : List CtlDesc) (ms : List Member) → run_order cs ms ≡ map (λ m. m.serial) (ordered cs ms) }
    ensures in_a_set { (cs : List CtlDesc) (set : Places) (ms : List Member) → IsPermutation ms (in_order cs set ms) }
{}

/// Controllers with serials of their own are sorted by depth, and those of one depth by serial. Where it is told which
/// set the depths are taken in, those that stand by serial are.
pub fn an_order_is_sorted_by_depth_and_then_by_serial()
    ensures sorted { (cs : List CtlDesc) (ms : List Member) → AllPairs (λ a b. a.serial ≢ b.serial) ms
        → AllPairs (GoesBefore cs (places_of ms)) (ordered cs ms) }
    ensures in_a_set { (cs : List CtlDesc) (set : Places) (ms : List Member) → AllPairs (λ a b. a.serial < b.serial) ms
        → AllPairs (GoesBefore cs set) (in_order cs set ms) }
{}

/// Where no described controller precedes itself at some distance, none in an order is preceded by a later one.
pub fn what_precedes_comes_first()
    ensures first { (cs : List CtlDesc) (ms : List Member) → first_in_loop cs ≡ None
        → AllPairs (λ a b. precedes_at cs b.place a.place ≡ false) (ordered cs ms) }
    ensures in_a_set { (cs : List CtlDesc) (set : Places) (ms : List Member) → first_in_loop cs ≡ None
        → All (λ m. set m.place ≡ true) ms
        → AllPairs (λ a b. precedes_at cs b.place a.place ≡ false) (in_order cs set ms) }
{}

/// Where no described controller precedes itself at some distance, a depth is one more than the greatest depth of a
/// member that precedes the controller, and a height one more than the greatest of those that it precedes; they are 0
/// where there is none. So the bound on links in their definitions, the number of controllers, leaves nothing out.
pub fn depths_and_heights_follow_the_links()
    ensures depth { (cs : List CtlDesc) (set : Places) (p : ℕ) → first_in_loop cs ≡ None → depth cs set p
        ≡ greatest_below (λ q. if set q && precedes_at cs q p then suc (depth cs set q) else 0) (length cs) }
    ensures height { (cs : List CtlDesc) (p : ℕ) → first_in_loop cs ≡ None → height cs p
        ≡ greatest_below (λ q. if precedes_at cs p q then suc (height cs q) else 0) (length cs) }
{}
