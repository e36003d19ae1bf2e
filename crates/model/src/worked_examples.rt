// The worked examples of the rules, and that they are about the product's own objects.
ghost use Rattle.std.specs.Prelude.{◌≡◌};
ghost use Rattle.model.specs.Examples.{product, ExamplesHold};
ghost use Rattle.model.specs.Policies.{youngest};

use kinds::answer::{Class, Outcome};
use kinds::join::Object;
use kinds::kind::Kind;
use kinds::operation::Operation;

// Each call of the table of examples is told what the table says.
pub fn table_holds()
    ensures { ExamplesHold }
{}

// What an operation is to an object of the product, and what it does: as the table of examples has it.
pub fn product_behaviour(object: Object, operation: Operation) -> (Class, Outcome<Object>)
    ensures class { result.0 ≡ (product youngest).class object operation }
    ensures acts { result.1 ≡ (product youngest).acts object operation }
{
    (object.class(operation), object.act(operation))
}
