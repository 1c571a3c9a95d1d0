//! What scripts print under each policy, and when a policy is let go.
use crate::runs::{ROOM, RUN, ends_under, ends_well_under_each, numbered};
use disk_model::{MemorySource, MemoryStation};
use irtree_engine::Engine;
use irtree_top::Ended;
use spatial_base::Rect;
use split_policy::{Quadratic, SplitPolicy};
use std::alloc::Global;
use std::rc::Rc;
use std::test::Fail;

// A script stores 33 places in a line, one more than a node of the tree holds, and removes two thirds of them.
#[test]
fn all_policies_give_the_same_replies(rt: HostRuntime) -> Result<(), Fail> {
    let mut script = numbered(rt.alloc(), 33, "add t# 0.# 0\n")?;
    script.push_str(numbered(rt.alloc(), 22, "remove t#\n")?.as_str())?;
    script.push_str("count\nnearest 0 0 3\n")?;
    let mut replies = numbered(rt.alloc(), 55, "ok\n")?;
    replies.push_str(
        "count 11\n= 3\n1 \"t22\" 0.2200000\n2 \"t23\" 0.2300000\n3 \"t24\" 0.2400000\n",
    )?;
    let (script, replies) = (script.as_bytes(), replies.as_bytes());
    assert!(rt; ends_well_under_each(rt.alloc(), &RUN, script, replies)?);
    Ok(())
}

// A policy that holds a token, of which there are as many as there are such policies, and one more.
#[derive(Drop)]
struct Tokened {
    policy: Quadratic,
    token: Rc<u8, Global>,
}

impl SplitPolicy for Tokened {
    ghost count = { λ it. it.policy };

    ghost chooses = { λ _ _ _ _ _ _. Unit {0} };

    ghost splits_by = { λ _ _ _ _. Unit {0} };

    fn choose(&mut self, used: u32, rects: &[Rect; 32], add: &Rect, shared: &[u32; 32]) -> u8 {
        self.policy.choose(used, rects, add, shared)
    }

    fn split(&mut self, rects: &[Rect; 33], like: &[[u32; 33]; 33]) -> u64 {
        self.policy.split(rects, like)
    }

    fn splits(&self) -> u64 {
        self.policy.splits()
    }
}

// A policy with a token like this one.
fn policy_with(alloc: Global, token: &Rc<u8, Global>) -> Result<Box<dyn SplitPolicy>, Fail> {
    let policy = Tokened {
        policy: Quadratic::new(),
        token: Rc::clone(token)?,
    };
    Ok(Box::new(alloc, policy)?)
}

// Whether an opening of a foreign store is refused.
fn is_refused(alloc: Global, policy: Box<dyn SplitPolicy>) -> Result<bool, Fail> {
    let mut foreign = MemoryStation::with_image(alloc, &[120; 4096], &[0, 7], ROOM)?;
    match Engine::open(alloc, &mut foreign, 0, policy) {
        Ok(engine) => {
            let _loan = engine.into_disk();
            Ok(false)
        }
        Err(_) => Ok(true),
    }
}

// How many tokens there are after an opening with the first policy, after a change to the second one, and after the engine's close.
fn counts_of(
    alloc: Global,
    token: &Rc<u8, Global>,
    first: Box<dyn SplitPolicy>,
    second: Box<dyn SplitPolicy>,
) -> Result<[usize; 3], Fail> {
    let mut station = MemoryStation::new(alloc, ROOM);
    let mut engine = Engine::open(alloc, &mut station, 0, first)?;
    let opened = Rc::strong_count(token);
    engine.set_policy(second);
    let changed = Rc::strong_count(token);
    engine.close()?;
    Ok([opened, changed, Rc::strong_count(token)])
}

#[test]
fn a_policy_is_let_go_by_another_in_its_place_and_by_a_close(rt: HostRuntime) -> Result<(), Fail> {
    let token = Rc::new(rt.alloc(), 0)?;
    let first = policy_with(rt.alloc(), &token)?;
    let second = policy_with(rt.alloc(), &token)?;
    assert!(rt; counts_of(rt.alloc(), &token, first, second)? == [3, 2, 1]);
    Ok(())
}

#[test]
fn a_policy_is_let_go_by_a_refused_opening_and_by_a_run(rt: HostRuntime) -> Result<(), Fail> {
    let token = Rc::new(rt.alloc(), 0)?;
    let refused = policy_with(rt.alloc(), &token)?;
    assert!(rt; Rc::strong_count(&token) == 2);
    assert!(rt; is_refused(rt.alloc(), refused)?);
    assert!(rt; Rc::strong_count(&token) == 1);
    let mut empty = MemorySource::new(rt.alloc(), b"", 1, &[])?;
    let given = policy_with(rt.alloc(), &token)?;
    assert!(rt; ends_under(rt.alloc(), &RUN, &mut empty, given, Ended::Done, b"")?);
    assert!(rt; Rc::strong_count(&token) == 1);
    Ok(())
}
