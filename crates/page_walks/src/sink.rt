//! What takes the rows of a walk, leaf by leaf.
ghost use Rattle.std.specs.Prelude.{◌≡◌, ℕ, List, [], ◌++◌, OnOk, IsErrOf};
ghost use Rattle.page_face.specs.Nodes.{count_of};
ghost use Rattle.btree_nodes.specs.declared.form.Form.{Form};
ghost use Rattle.btree_nodes.specs.Nodes.{IsLeaf, rows_in};
ghost use Rattle.btree_nodes.specs.Rows.{Row};
ghost use Rattle.page_face.specs.declared.fault.Rule.{Rule};

use page_face::{Page, Rule};

/// Why a sink refuses a leaf.
#[derive(Clone, Copy, Debug, PartialEq, Eq)]
pub enum Refusal {
    /// It ran out of memory.
    Memory,
    /// The bytes of the leaf break a rule.
    Breaks(Rule),
}

/// What takes the rows of a map of one form, leaf by leaf, in the order of their keys.
///
/// What a sink has made of the rows is a relation between two states of it (`takes`), so that it need not keep them. It may also ask of
/// each leaf that its rows are of their form (`good`), and names the rule that they break otherwise.
pub trait Sink {
    /// The form of the map.
    ghost form: { Form };

    /// The second state follows from the first once these rows were taken, in their order.
    ghost takes: { Self → List Row → Self → Type 0 };

    /// The bytes of a leaf keep what the sink asks of its rows.
    ghost good: { List ℕ → Type 0 };

    /// The bytes of a leaf break this rule, which keeps them from being good.
    ghost breaks: { Rule → List ℕ → Type 0 };

    /// Takes the rows of a leaf, of which there are `count`.
    ///
    /// Refuses `Breaks` with a rule that the leaf breaks, or `Memory`. After a refusal it may be in any state.
    fn leaf(&mut self, page: &Page, count: usize) -> Result<(), Refusal>
        requires count { count ≡ count_of page.now }
        requires sound { IsLeaf form 1 page.now }
        ensures takes { OnOk result (takes self.old (rows_in form page.now) self.new) }
        ensures good { OnOk result (good page.now) }
        ensures breaks { (rule : Rule) → IsErrOf result (Refusal.Breaks rule) → breaks rule page.now };

    /// No leaf both breaks a rule and is good.
    ghost apart: { (rule : Rule) (page : List ℕ) → breaks rule page → good page → ⊥ };

    /// Once no row was taken, the state is as before.
    ghost takes_none: { (s : Self) → takes s [] s };

    /// Rows that are taken after others are taken with them.
    ghost takes_more: { (a b c : Self) (rows more : List Row) → takes a rows b → takes b more c → takes a (rows ++ more) c };
}
