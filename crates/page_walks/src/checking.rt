//! The check of a map.
ghost use Rattle.std.specs.Prelude.{◌≡◌, ◌≢◌, ℕ, ◌+◌, List, IfOk, IfSome, IfNone, MatchOption, Err};
ghost use Rattle.page_face.specs.Calls.{FailsReading, Reads};
ghost use Rattle.page_face.specs.declared.fault.Damage.{Damage};
ghost use Rattle.btree_nodes.specs.declared.form.Form.{Form};
ghost use Rattle.btree_nodes.specs.Damages.{AreReadable};
ghost use Rattle.btree_nodes.specs.Tree.{map_rows, map_uses};
ghost use Rattle.page_walks.specs.Met.{held, Meets};
ghost use Rattle.page_walks.specs.Maps.{IsBadMap, IsBrokenMap, IsGoodMap, IsWholeMap};

use crate::sink::{Refusal, Sink};
use crate::walking::walk_map;
use btree_nodes::Form;
use page_face::{Damage, Page, PageFault, Pages};
use paged_map::{Layout, PagedMap};
use std::collections::BTreeSet;
use std::marker::PhantomData;

/// The check of a map over pages.
pub trait Check {
    /// The form of the map's pages.
    ghost form: { Form };

    /// The page of the map's root, or 0.
    ghost root: { Self → ℕ };

    /// Returns `None` if the map is whole and none of its pages is in `seen`, and otherwise a page of the map and a rule that it breaks.
    ///
    /// The rule is one of `Link` to `Level`, or `Shared` for a page that the map uses twice or that was in `seen`. After `None`, `seen`
    /// has gained exactly the map's pages. After any other end it may have gained some of them. Returns `Disk`, `Stopped` or `Memory` as a
    /// look at a page does.
    ///
    /// Looks once at each page of the map, and at no other. Takes memory for a number a page. Copies one page for each level above the
    /// leaves.
    fn check<P: Pages>(
        &self,
        pages: &mut P,
        seen: &mut BTreeSet<u32>,
    ) -> Result<Option<Damage>, PageFault>
        ensures decides { AreReadable (P.pages pages.old) (P.count pages.old)
            → IfOk result (λ found. MatchOption found (IsWholeMap form (P.pages pages.old) (P.count pages.old) (held seen.old) (root self.now))
            (IsBrokenMap form (P.pages pages.old) (P.count pages.old) (held seen.old) (root self.now))) }
        ensures exact { AreReadable (P.pages pages.old) (P.count pages.old)
            → IfOk result (λ found. IfSome found (λ damage. IsWholeMap form (P.pages pages.old) (P.count pages.old) (held seen.old) (root self.now) → ⊥)) }
        ensures gains { AreReadable (P.pages pages.old) (P.count pages.old)
            → IfOk result (λ found. IfNone found ((n : ℕ) → held seen.new n ≡ held seen.old n + map_uses form (P.pages pages.old) (root self.now) n)) }
        ensures meets { AreReadable (P.pages pages.old) (P.count pages.old)
            → Meets (map_uses form (P.pages pages.old) (root self.now)) (P.asked pages.old) (P.asked pages.new) (held seen.old) (held seen.new) }
        ensures undamaged { (damage : Damage) → result ≢ Err (PageFault.Damaged damage) }
        ensures fails { FailsReading P.Pages pages.old pages.new result }
        ensures frame { Reads P.Pages pages.old pages.new };

    /// Checks the map as [`Check::check`] does, and hands the rows of each leaf to the sink, in the order of their keys.
    ///
    /// A leaf is handed over once it is checked itself, and pages after it may still be broken. If the sink refuses a leaf by a rule, the
    /// damage is of that leaf. After any end but `None` the sink may be in any state.
    fn check_into<P: Pages, S: Sink>(
        &self,
        pages: &mut P,
        seen: &mut BTreeSet<u32>,
        sink: &mut S,
    ) -> Result<Option<Damage>, PageFault>
        requires { S.form ≡ form }
        ensures decides { AreReadable (P.pages pages.old) (P.count pages.old)
            → IfOk result (λ found. MatchOption found (IsGoodMap S.good form (P.pages pages.old) (P.count pages.old) (held seen.old) (root self.now))
            (IsBadMap S.breaks form (P.pages pages.old) (P.count pages.old) (held seen.old) (root self.now))) }
        ensures exact { AreReadable (P.pages pages.old) (P.count pages.old)
            → IfOk result (λ found. IfSome found (λ damage. IsGoodMap S.good form (P.pages pages.old) (P.count pages.old) (held seen.old) (root self.now) → ⊥)) }
        ensures gains { AreReadable (P.pages pages.old) (P.count pages.old)
            → IfOk result (λ found. IfNone found ((n : ℕ) → held seen.new n ≡ held seen.old n + map_uses form (P.pages pages.old) (root self.now) n)) }
        ensures takes { AreReadable (P.pages pages.old) (P.count pages.old)
            → IfOk result (λ found. IfNone found (S.takes sink.old (map_rows form (P.pages pages.old) (root self.now)) sink.new)) }
        ensures meets { AreReadable (P.pages pages.old) (P.count pages.old)
            → Meets (map_uses form (P.pages pages.old) (root self.now)) (P.asked pages.old) (P.asked pages.new) (held seen.old) (held seen.new) }
        ensures undamaged { (damage : Damage) → result ≢ Err (PageFault.Damaged damage) }
        ensures fails { FailsReading P.Pages pages.old pages.new result }
        ensures frame { Reads P.Pages pages.old pages.new };
}

// Takes the rows of a map and keeps nothing of them.
#[derive(Drop)]
struct Nothing<L: Layout> {
    layout: PhantomData<L>,
}

impl<L: Layout> Sink for Nothing<L> {
    ghost form = { L.form };

    ghost takes = { λ _ _ _. Unit {0} };

    ghost good = { λ _. Unit {0} };

    ghost breaks = { λ _ _. ⊥ };

    ghost apart = { λ _ _ never _. never };

    ghost takes_none = { λ _. tt };

    ghost takes_more = { λ _ _ _ _ _ _ _. tt };

    fn leaf(&mut self, _page: &Page, _count: usize) -> Result<(), Refusal> {
        Ok(())
    }
}

// The layout's constants as one value.
fn form_of<L: Layout>() -> Form
    ensures { result ≡ L.form }
{
    Form {
        key: L::KEY,
        value: L::VALUE,
        map: L::MAP,
    }
}

impl<L: Layout> Check for PagedMap<L> {
    ghost form = { L.form };

    ghost root = { λ map. map.root };

    fn check<P: Pages>(
        &self,
        pages: &mut P,
        seen: &mut BTreeSet<u32>,
    ) -> Result<Option<Damage>, PageFault> {
        let mut nothing = Nothing::<L> {
            layout: PhantomData,
        };
        match walk_map(pages, form_of::<L>(), self.root(), seen, &mut nothing) {
            Ok(()) => Ok(None),
            Err(PageFault::Damaged(damage)) => Ok(Some(damage)),
            Err(fault) => Err(fault),
        }
    }

    fn check_into<P: Pages, S: Sink>(
        &self,
        pages: &mut P,
        seen: &mut BTreeSet<u32>,
        sink: &mut S,
    ) -> Result<Option<Damage>, PageFault> {
        match walk_map(pages, form_of::<L>(), self.root(), seen, sink) {
            Ok(()) => Ok(None),
            Err(PageFault::Damaged(damage)) => Ok(Some(damage)),
            Err(fault) => Err(fault),
        }
    }
}
