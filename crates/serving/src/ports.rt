//! The UDP ports of bricks.

ghost use Rattle.std.specs.Prelude.{◌≡◌, ◌<◌, ◌+◌, ◌^◌};
ghost use Rattle.layout.specs.Limits.{IsLayout};
ghost use Rattle.serving.specs.Ports.{ports_of, port_of, brick_at};

use fab_base::BrickId;
use layout::Layout;

/// The ports of a layout's bricks: brick b has the port b above the first.
#[derive(Clone, Copy)]
pub struct Ports {
    /// The port of brick 0.
    pub first: u16,
    /// How many bricks there are.
    pub bricks: u16,
}

impl Ports {
    /// The ports of this layout's bricks.
    pub fn of(layout: &Layout) -> Ports
        ensures value { result ≡ ports_of layout.now }
        ensures limits { IsLayout layout.now }
    {
        Ports {
            first: layout.port(),
            bricks: layout.bricks(),
        }
    }

    /// The port of a brick. One that no layout has may have a number past all ports.
    pub(crate) fn port_of(self, brick: BrickId) -> u32
        ensures { result ≡ port_of self brick }
    {
        u32::from(self.first) + u32::from(brick.0)
    }

    /// The brick whose port this is, if it is one's.
    pub(crate) fn brick_at(self, port: u16) -> Option<BrickId>
        ensures { result ≡ brick_at self port }
    {
        if self.first <= port && u32::from(port) < u32::from(self.first) + u32::from(self.bricks) {
            Some(BrickId(port - self.first))
        } else {
            None
        }
    }
}
