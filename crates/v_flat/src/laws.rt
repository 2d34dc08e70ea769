//! What holds of the lists that this crate makes. The function has no code: it carries a law.
ghost use Rattle.v_flat.specs.Drivers.{ListsHaveAllDrivers};

/// Each list of items with outputs has the drivers of its module: its continuous assignments and blocks, and what outputs of its instances
/// drive.
pub fn lists_have_all_drivers()
    ensures { ListsHaveAllDrivers }
{}
