// Where text is written.
ghost use Rattle.std.specs.Prelude.{◌≡◌, ◌<◌, ◌≤◌, ◌++◌, length, take, option_map, IfOk, OnErr, OnOk};
ghost use Rattle.mon_run.specs.Steps.{Rose};
ghost use Rattle.mon_run.specs.Outside.{SinkState, Takes, TakesFront};

/// A sink did not take what it was given.
#[derive(Clone, Copy, PartialEq, Eq)]
pub struct Failed;

/// What takes text. Contracts see the bytes that were written, where it tells them, and a count of its
/// faults, which never falls.
pub trait Sink {
    ghost state: { Self → SinkState };

    /// Takes some bytes of the front of a piece, and says how many. It fails only where the count of
    /// faults rose.
    fn write(&mut self, piece: &[u8]) -> Result<usize, Failed>
        requires some { 0 < length piece.now }
        ensures counts { (state self.old).faults ≤ (state self.new).faults }
        ensures within { IfOk result (λ taken. taken ≤ length piece.now) }
        ensures takes { IfOk result (λ taken. 0 < taken) }
        ensures appends { IfOk result (λ taken. (state self.new).written ≡ option_map
            (λ bytes. bytes ++ take taken piece.now) (state self.old).written) }
        ensures failed { OnErr result (Rose (state self.old).faults (state self.new).faults) }
        ensures kept { OnErr result ((state self.new).written ≡ (state self.old).written) };
}

/// Writes a text whole, or the front of it before the first write that failed.
pub fn write_all<O: Sink>(out: &mut O, text: &[u8]) -> Result<(), Failed>
    ensures counts { (O.state out.old).faults ≤ (O.state out.new).faults }
    ensures whole { OnOk result (Takes text.now (O.state out.old) (O.state out.new)) }
    ensures failed { OnErr result (Rose (O.state out.old).faults (O.state out.new).faults) }
    ensures front { OnErr result (TakesFront text.now (O.state out.old) (O.state out.new)) }
{
    let mut rest = text;
    while !rest.is_empty() {
        let taken = out.write(rest)?;
        let (_, left) = rest.split_at(taken);
        rest = left;
    }
    Ok(())
}
