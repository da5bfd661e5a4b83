// Taking leaves down, and up again.
ghost use Rattle.std.specs.Prelude.{◌<◌, length, IfErr, IfOk, OnErr};
ghost use Rattle.leaf_cell.specs.declared.controls.Control.TheVariants as going;
ghost use Rattle.mon_topo.specs.Zones.{leaves_in};
ghost use Rattle.mon_store.specs.Passes.{IsPass};
ghost use Rattle.mon_store.specs.Switches.{IsNotSwitched, IsSwitched};
ghost use Rattle.mon_store.specs.Writes.{IsUnwritten};

use crate::passes::Pass;
use crate::stores::Store;
use know::{Know, Names};
use leaf_cell::{Control, ControlFault};
use mon_value::Leaf;
use std::sync::Wait;

impl<N: Names> Store<N> {
    /// Takes a leaf down, and tells how many entries its history has then. It keeps its rows, and neither takes one nor
    /// is read until it is up again. No memory is taken.
    pub fn leaf_down<R: Wait>(
        &self,
        rt: &R,
        p: &mut Pass<N>,
        leaf: Leaf,
    ) -> Result<u64, ControlFault>
        requires there { leaf.0 < length (leaves_in self.now.topology) }
        ensures switched { IfOk result (IsSwitched leaf going.Down p.old p.new) }
        ensures refused { IfErr result (IsNotSwitched leaf going.Down p.old p.new) }
        ensures nothing { OnErr result (IsUnwritten p.old p.new) }
    {
        self.switch(rt, &mut p.know, leaf, Control::Down)
    }

    /// Takes a leaf that is down up again, and tells how many entries its history has then. What it missed it does not
    /// have. No memory is taken.
    pub fn leaf_up<R: Wait>(&self, rt: &R, p: &mut Pass<N>, leaf: Leaf) -> Result<u64, ControlFault>
        requires there { leaf.0 < length (leaves_in self.now.topology) }
        ensures switched { IfOk result (IsSwitched leaf going.Up p.old p.new) }
        ensures refused { IfErr result (IsNotSwitched leaf going.Up p.old p.new) }
        ensures nothing { OnErr result (IsUnwritten p.old p.new) }
    {
        self.switch(rt, &mut p.know, leaf, Control::Up)
    }

    // Takes a leaf down or up.
    fn switch<R: Wait>(
        &self,
        rt: &R,
        know: &mut Know<N>,
        leaf: Leaf,
        to: Control,
    ) -> Result<u64, ControlFault>
        requires there { leaf.0 < length (leaves_in self.now.topology) }
        requires pass { IsPass N.setting know.old }
        ensures switched { IfOk result (IsSwitched leaf to know.old know.new) }
        ensures refused { IfErr result (IsNotSwitched leaf to know.old know.new) }
        ensures nothing { OnErr result (IsUnwritten know.old know.new) }
        ensures pass { IsPass N.setting know.new }
    {
        let tables = &self.tables;
        let cell = self.leaf_cell(leaf);
        let switched = cell.control(rt, tables, know, to);
        know.confirm(tables);
        switched
    }
}
