// Laws of scripts.
ghost use Rattle.session_play.specs.Moments.{disk_told};
ghost use Rattle.session_play.specs.Order.{KeepsOrder};
ghost use Rattle.session_play.specs.Runs.{ScriptIsARun};

use edge_model::Disk;

/// The replies of a script are a run of the machine.
pub fn script_is_a_run_law()
    ensures { ScriptIsARun }
{}

/// Behind an answer no crash leaves anything of an earlier step.
pub fn script_order_law<D: Disk>()
    ensures { KeepsOrder (disk_told D.reads D.images D.moment D.since) }
{}
