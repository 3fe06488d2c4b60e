//! A flow stored in one byte.
ghost use Rattle.std.specs.Prelude.{◌≡◌, ◌↔◌, IsTrue, Some};
ghost use Rattle.water.specs.declared.flow.Flow.TheVariants.{Flat};
ghost use Rattle.water.specs.Flows.{IsTellingAll, direction_of};
ghost use Rattle.water.specs.Flows.{back_of};

use lattice::Dir;
use std::marker::Model;
use water::Flow;

/// A flow in one byte.
#[derive(Clone, Copy)]
pub struct FlowByte {
    byte: u8,
}

impl Model for FlowByte {
    ghost use Rattle.std.specs.Prelude.{◌<◌};
    ghost use Rattle.std.proofs.Common.{ap};
    ghost use Rattle.water.specs.declared.flow.Flow.{Flow};

    ghost Value = { Flow };

    ghost use Rattle.flow_d8.specs.FlowBytes.{flow_at, byte_of, byte_of_flow_at};

    ghost view = { λ a. flow_at a.byte };

    ghost invariant = { λ a. a.byte < 28 };

    ghost inverse = { λ flow. record { byte = byte_of flow } };

    ghost inverse_ok = { λ a small. ap (λ byte. record { byte = byte }) (byte_of_flow_at a.byte small) };
}

// The flows, indexed by their bytes.
static FLOWS: [Flow; 28] = [
    Flow::Unknown,
    Flow::NoGround,
    Flow::Outlet,
    Flow::Flat,
    Flow::To(Dir::East),
    Flow::To(Dir::SouthEast),
    Flow::To(Dir::South),
    Flow::To(Dir::SouthWest),
    Flow::To(Dir::West),
    Flow::To(Dir::NorthWest),
    Flow::To(Dir::North),
    Flow::To(Dir::NorthEast),
    Flow::Beside(Dir::East),
    Flow::Beside(Dir::SouthEast),
    Flow::Beside(Dir::South),
    Flow::Beside(Dir::SouthWest),
    Flow::Beside(Dir::West),
    Flow::Beside(Dir::NorthWest),
    Flow::Beside(Dir::North),
    Flow::Beside(Dir::NorthEast),
    Flow::FlatTo(Dir::East),
    Flow::FlatTo(Dir::SouthEast),
    Flow::FlatTo(Dir::South),
    Flow::FlatTo(Dir::SouthWest),
    Flow::FlatTo(Dir::West),
    Flow::FlatTo(Dir::NorthWest),
    Flow::FlatTo(Dir::North),
    Flow::FlatTo(Dir::NorthEast),
];

impl FlowByte {
    /// The byte that stores the flow.
    #[inline(always)]
    pub fn of(flow: Flow) -> FlowByte
        ensures { result ≡ flow }
    {
        let byte = match flow {
            Flow::Unknown => 0,
            Flow::NoGround => 1,
            Flow::Outlet => 2,
            Flow::Flat => 3,
            Flow::To(direction) => 4 + direction as u8,
            Flow::Beside(direction) => 12 + direction as u8,
            Flow::FlatTo(direction) => 20 + direction as u8,
        };
        FlowByte { byte }
    }

    /// The flow that the byte stores.
    #[inline(always)]
    pub fn flow(self) -> Flow
        ensures { result ≡ self }
    {
        FLOWS[self.byte as usize]
    }

    /// Whether the flow is `Flat`, by one comparison of bytes.
    #[inline(always)]
    pub(crate) fn is_flat(self) -> bool
        ensures { IsTrue result ↔ (self ≡ Flat) }
    {
        self.byte == 3
    }

    /// Whether the flow is resolved: it shows where the point drains, or that it isn't ground. It takes one comparison of
    /// bytes.
    #[inline(always)]
    pub(crate) fn tells_all(self) -> bool
        ensures { IsTrue result ↔ IsTellingAll self }
    {
        self.byte != 0 && self.byte != 3
    }

    /// Whether the flow's direction is opposite to this one, by one comparison of bytes. A byte that names a direction has
    /// its number modulo eight.
    #[inline(always)]
    pub(crate) fn leads_back(self, direction: Dir) -> bool
        ensures { IsTrue result ↔ (direction_of self ≡ Some (back_of direction)) }
    {
        if self.byte < 4 {
            return false;
        }
        self.byte % 8 == direction as u8
    }
}
