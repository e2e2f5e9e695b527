// What the results of a fired handler put out.
ghost use Rattle.std.specs.Prelude.{◌≡◌, ◌<◌, length, All};
ghost use Rattle.fix_engine.specs.Progress.{Progress};
ghost use Rattle.net_plan.specs.Plan.{packets_of, boxes_of};
ghost use Rattle.net_plan.specs.Cells.{cells_of};
ghost use Rattle.abstract_step.specs.Step.{result_at, IsPut};
ghost use Rattle.move_table.specs.Offered.{Offered};
ghost use Rattle.packet_domain.specs.Reasons.{IsPutOut, ArePutOut, Gives, SomeGives};

use abstract_step::{Fired, Put};
use cell_sets::CellSet;
use fix_engine::Work;
use move_table::offer;
use net_plan::{Fact, Network};

fn offer_put<S: CellSet>(net: &Network, b: u32, put: Put, work: &mut Work<S>)
    requires cells { work.old.cells ≡ cells_of net.now }
    requires boxed { b < boxes_of net.now }
    requires in_range { IsPut net.now b put }
    ensures { Offered net.now (IsPutOut net.now b put) work.old work.new }
{
    let end = net.end_of_port(b, put.port);
    offer(net, Fact::Out(end, put.packet), work);
}

fn offer_puts<S: CellSet>(net: &Network, b: u32, puts: &[Put], work: &mut Work<S>)
    requires cells { work.old.cells ≡ cells_of net.now }
    requires boxed { b < boxes_of net.now }
    requires in_range { All (IsPut net.now b) puts.now }
    ensures { Offered net.now (ArePutOut net.now b puts.now) work.old work.new }
{
    for put in puts {
        offer_put(net, b, *put, work);
    }
}

fn offer_result<S: CellSet>(
    net: &Network,
    fired: &Fired,
    b: u32,
    p: u32,
    i: usize,
    work: &mut Work<S>,
)
    requires cells { work.old.cells ≡ cells_of net.now }
    requires boxed { b < boxes_of net.now }
    requires packet { p < packets_of net.now }
    requires result { i < length fired.now }
    requires in_range { All (λ result. All (IsPut net.now b) result.puts) fired.now }
    ensures { Offered net.now (Gives net.now b p (result_at fired.now i)) work.old work.new }
{
    if fired.aborted(i) {
        offer(net, Fact::Abort(b, p), work);
    } else {
        offer_puts(net, b, fired.outs(i), work);
    }
}

/// Offers what the results put out, and the abort of those that abort.
pub fn offer_results<S: CellSet>(net: &Network, fired: &Fired, b: u32, p: u32, work: &mut Work<S>)
    requires cells { work.old.cells ≡ cells_of net.now }
    requires boxed { b < boxes_of net.now }
    requires packet { p < packets_of net.now }
    requires in_range { All (λ result. All (IsPut net.now b) result.puts) fired.now }
    ensures { Offered net.now (SomeGives net.now b p fired.now) work.old work.new }
{
    for i in 0..fired.len() {
        offer_result(net, fired, b, p, i, work);
    }
}
