//! What the test of objects, areas and chains tells of a machine.

ghost use Rattle.b67_image_shape.specs.ObjectLaws.{ObjectsAreTested};

use b67_backing::sectors_tell_chains;

/// By a table that marks its objects, a machine's objects, areas and chains pass their test exactly if they are as they
/// should be.
pub fn objects_are_tested()
    ensures { ObjectsAreTested }
{
    sectors_tell_chains();
}
