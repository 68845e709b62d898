// The ops of a list, applied in list order.
// Three slices, as `channels` says.
ghost use Rattle.std.specs.Prelude.{◌≡◌, map};
ghost use Rattle.list.specs.Lists.{op_of};
ghost use Rattle.channels.specs.Channels.{EquallyLong, channels};
ghost use Rattle.run.specs.Run.{run_ops};

use list::Slot;

// Each op in turn finds the width that the one before it gave. The lengths were compared before: no step refuses them.
pub(crate) fn run_ops(ops: &[Slot], start: u8, a: &mut [f32], b: &mut [f32], c: &mut [f32])
    requires { EquallyLong (channels a.old b.old c.old) }
    ensures { channels a.new b.new c.new ≡ run_ops start (map op_of ops.now) (channels a.old b.old c.old) }
{
    let mut width = start;
    for slot in ops {
        let _ = run_op::apply(slot.op, width, a, b, c);
        width = op::gives(slot.op, width);
    }
}
