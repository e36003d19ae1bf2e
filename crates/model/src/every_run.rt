// What holds of every list of calls: the promises, as the contract of a function that does nothing.
ghost use Rattle.model.specs.Promises.{Always, AfterEveryRun, Told, Serial, RightVictim, Progress, Questions, Refusals, Single};

use kinds::kind::Kind;

// For every kind with its laws, every capacity, every victim policy with its law, every number of transactions,
// all initial states and every list of calls.
pub fn every_run_keeps_its_promises<K: Kind>()
    ensures told { Always K.Kind.classed K.Kind.acts (AfterEveryRun Told) }
    ensures serial { Always K.Kind.classed K.Kind.acts (AfterEveryRun Serial) }
    ensures victim { Always K.Kind.classed K.Kind.acts (AfterEveryRun RightVictim) }
    ensures progress { Always K.Kind.classed K.Kind.acts (AfterEveryRun Progress) }
    ensures questions { Always K.Kind.classed K.Kind.acts (AfterEveryRun Questions) }
    ensures refusals { Always K.Kind.classed K.Kind.acts Refusals }
    ensures single { Always K.Kind.classed K.Kind.acts Single }
{}
