//! What the text of a map says.
ghost use Rattle.map_texts.specs.Readable.{EmittedMapsAreRead, MapTextsAreRead};
ghost use Rattle.map_texts.specs.Standing.{EmittedMapsStand};
ghost use Rattle.map_texts.specs.Unbroken.{EmittedMapsNameAll};

/// The text of a written map, with a line feed after it, says the map.
pub fn map_texts_are_read()
    ensures { MapTextsAreRead }
{}

/// The text of the map of an emitted design says the map, where a map may state the bounds.
pub fn emitted_maps_are_read()
    ensures { EmittedMapsAreRead }
{}

/// The written map of an emitted design stands for the design's map.
pub fn emitted_maps_stand()
    ensures { EmittedMapsStand }
{}

/// The written map of an emitted design breaks none of the rules on names and bounds.
pub fn emitted_maps_name_all()
    ensures { EmittedMapsNameAll }
{}
