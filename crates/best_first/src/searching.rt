//! A ranked search opens nodes for a best-first search.
ghost use Rattle.std.specs.Prelude.{◌≡◌};
ghost use Rattle.best_first.specs.Faults.{held_with};

use crate::opening::{opened, started};
use crate::{Item, Ranked, Ranking};
use page_face::{PageFault, Pages};
use std::alloc::Global;

// The fault that is held after one more.
fn hold(fault: PageFault, held: Option<PageFault>) -> Option<PageFault>
    ensures { result ≡ held_with fault held }
{
    match fault {
        PageFault::Memory => held,
        other => Some(other),
    }
}

impl<'q, P: Pages> Ranked<P> for Ranking<'q> {
    ghost use Rattle.btree_nodes.specs.Damages.{AreReadable};
    ghost use Rattle.node_rows.specs.Rows.{bytes_in};
    ghost use Rattle.best_first.specs.Fits.{FitsTree, HasNode, nodes_at};
    ghost use Rattle.best_first.specs.Harms.{IsHarm, IsNodePage};
    ghost use Rattle.best_first.specs.NodeOpenings.{StandsIn, SaysLevel, opened_in, started_in};
    ghost use Rattle.best_first.specs.Laws.{fits-bounded, fits-starts, fits-opens, harm-sooner, harm-below};

    ghost fits = { λ s p. FitsTree (P.pages p) (P.count p) (P.first p) s.tree };

    ghost told = { λ s p. AreReadable (P.pages p) (P.count p) };

    ghost starts = { λ s p. started_in s.ids.now s.ask (nodes_at (P.pages p) s.tree) (bytes_in (P.pages p) s.tree.rows) s.tree.root };

    ghost has_node = { λ s p page level. HasNode (P.pages p) (P.count p) s.tree page level };

    ghost opens = { λ s p. opened_in s.ids.now s.at s.ask (nodes_at (P.pages p) s.tree) };

    ghost root = { λ s. s.tree.root };

    ghost is_node = { λ s p page. IsNodePage (P.pages p) s.tree.rows page };

    ghost stands = { StandsIn };

    ghost has_level = { SaysLevel };

    ghost harms = { λ s p old new damage. IsHarm (P.pages p) (P.count p) s.tree.rows old new damage };

    ghost held = { λ s. s.held };

    ghost starts_bounded = { λ s p f. fits-bounded (P.pages p) (P.count p) (P.first p) s.tree s.ids.now s.at s.ask s.on_map f };

    ghost starts_in = { λ s p f. fits-starts (P.pages p) (P.count p) (P.first p) s.tree s.ids.now s.ask f };

    ghost opens_in = { λ s p page level f h. fits-opens (P.pages p) (P.count p) s.tree s.ids.now s.at s.ask page level h };

    ghost harms_sooner = { λ s p old more new damage h. harm-sooner (P.pages p) (P.count p) s.tree.rows old more new damage h };

    ghost mislevelled = { λ s p old new page level b off. harm-below (P.pages p) (P.count p) s.tree.rows old new page level b off };

    fn start(&mut self, alloc: Global, pages: &mut P) -> Result<Vec<Item>, PageFault> {
        match started(alloc, pages, &self.tree, self.ids, &self.ask) {
            Ok(items) => Ok(items),
            Err(fault) => {
                self.held = hold(fault, self.held);
                Err(fault)
            }
        }
    }

    fn open(
        &mut self,
        alloc: Global,
        pages: &mut P,
        node: u32,
        level: u8,
        most: Option<u64>,
    ) -> Result<Vec<Item>, PageFault> {
        match opened(
            alloc, pages, &self.tree, self.ids, &self.ask, &self.at, node, level, most,
        ) {
            Ok(items) => Ok(items),
            Err(fault) => {
                self.held = hold(fault, self.held);
                Err(fault)
            }
        }
    }
}
