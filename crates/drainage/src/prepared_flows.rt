//! A source of flows that prepares a tile when a search reaches it.
ghost use Rattle.std.specs.Prelude.{◌≡◌, ◌≤◌, ◌↔◌, IsTrue, IfOk, IfErr, length};
ghost use Rattle.std.proofs.Common.{refl, ◌∙◌, subst, sym};
ghost use Rattle.lattice.specs.Ground.{terrain};
ghost use Rattle.lattice.specs.Mosaic.{Mosaic, IsMosaic};
ghost use Rattle.catalogue.specs.Asked.{Asked};
ghost use Rattle.catalogue.specs.Endings.{ends_any};
ghost use Rattle.water.specs.Drainage.{AreFilledLevels};
ghost use Rattle.flow_d8.specs.LevelsAround.{OnLevels};
ghost use Rattle.water.specs.FlowSource.{IsToldOf};
ghost use Rattle.drainage.specs.Between.{IsHeldFor};
ghost use Rattle.drainage.specs.Following.{AreRead, IsStopped, ran_out, stopped_on};
ghost use Rattle.catalogue.proofs.Reading.{reads_nothing, reads_on};
ghost use Rattle.std.specs.Prelude.{Ok};

use crate::downstream::flow_by_tiles;
use crate::drainage_cache::DrainageCache;
use catalogue::is_ground;
use lattice::{Point, Refusal};
use std::alloc::Global;
use tile_labellings::Labellings;
use water::{Flow, FlowSource};

/// The flows of samples. Tiles whose flows aren't cached are prepared.
#[derive(Drop)]
pub(crate) struct PreparedFlows<'a, 'b, S: Labellings> {
    pub(crate) samples: &'a mut S,
    pub(crate) held: &'b mut DrainageCache,
}

impl<'a, 'b, S: Labellings> FlowSource for PreparedFlows<'a, 'b, S> {
    ghost tells = { λ flows m level. S.is_honest flows.samples.now
        × ((m ≡ S.mosaic flows.samples.now) × AreFilledLevels (terrain m) level) };

    ghost is_ready = { λ flows. IsHeldFor S.Samples flows.samples.now flows.held.now };

    // A later state has the same samples, and its cache stays right for them.
    ghost follows = { λ old new. (new.samples.ghost_name ≡ old.samples.ghost_name)
        × (new.held.ghost_name ≡ old.held.ghost_name)
        × (S.is_honest new.samples.now → S.is_honest old.samples.now)
        × (S.is_honest new.samples.now → S.mosaic new.samples.now ≡ S.mosaic old.samples.now)
        × IsHeldFor S.Samples new.samples.now new.held.now };

    ghost keeps = { λ old new. AreRead S.Samples old.samples.now new.samples.now };

    ghost refuses = { λ old new r. IsStopped S.Samples old.samples.now new.samples.now r };

    fn flow(&mut self, alloc: Global, point: Point) -> Result<Flow, Refusal> {
        flow_anywhere(alloc, self.samples, self.held, point)
    }

    fn donors_around(&self, point: Point) -> Option<[bool; 8]> {
        self.held.donors_around(point)
    }

    ghost is_mosaic = { λ a m level told. subst IsMosaic (sym told.1.0) (S.is_mosaic a.samples.now told.0) };

    ghost told_before = { λ a b m level follows told. (follows.2 told.0, (told.1.0 ∙ follows.3 told.0, told.1.1)) };

    ghost follows_itself = { λ a ready. (refl, refl, (λ honest. honest), (λ _. refl), ready) };

    ghost follows_on = { λ a b c first then. (then.0 ∙ first.0, then.1 ∙ first.1, (λ honest. first.2 (then.2 honest)), (λ honest. then.3 honest ∙ first.3 (then.2 honest)), then.4) };

    ghost keeps_itself = { λ a. reads_nothing _ S.keeps_itself a.samples.now tt };

    ghost keeps_on = { λ a b c first then. reads_on _ S.keeps_on a.samples.now b.samples.now c.samples.now tt (Ok tt) first then };

    ghost refuses_on = { λ a b c r kept refused. stopped_on _ S.keeps_on a.samples.now b.samples.now c.samples.now r kept refused };

    ghost runs_out = { λ a b kept. ran_out _ a.samples.now b.samples.now kept };
}

/// Where the point drains; NoGround if it isn't ground. Only the point's height decides that, not its stored level.
pub(crate) fn flow_anywhere<S: Labellings>(
    alloc: Global,
    samples: &mut S,
    held: &mut DrainageCache,
    point: Point,
) -> Result<Flow, Refusal>
    requires held { IsHeldFor S.Samples samples.old held.old }
    ensures flow { S.is_honest samples.new → IfOk result (λ flow. OnLevels (S.mosaic samples.old)
        (λ level. IsToldOf (terrain (S.mosaic samples.old)) level point flow)) }
    ensures held { IsHeldFor S.Samples samples.new held.new }
    ensures causes { IfErr result (λ r. IsTrue (ends_any r)) }
    ensures asked { Asked S.Samples samples.old samples.new result }
{
    let flow = held.flow(point);
    if flow.drains() {
        return Ok(flow);
    }
    if !is_ground(samples, point)? {
        return Ok(Flow::NoGround);
    }
    flow_by_tiles(alloc, samples, held, point)
}
