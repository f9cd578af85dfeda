//! Arcs in one of their directions.
ghost use Rattle.std.specs.Prelude.{◌≡◌, ◌<◌, ◌^◌};
ghost use Rattle.topo_build.specs.Table.{reference};

// An arc in one of its directions.
#[derive(Clone, Copy)]
pub(crate) struct Step {
    pub arc: u32,
    pub forwards: bool,
}

impl Step {
    // The arc's reference, as TopoJSON numbers it: arc `k` backwards is `-1 - k`.
    pub fn number(self) -> i32
        requires { self.arc < 2 ^ 20 }
        ensures { result ≡ reference self }
    {
        let arc = self.arc as i32;
        if self.forwards { arc } else { -1 - arc }
    }
}
