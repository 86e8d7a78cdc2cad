// Laws of texts.
ghost use Rattle.saving.specs.MapFaults.{TwoMapFaults};

// A map text whose map is refused has too many looks, or a wrong target.
pub fn map_texts_have_right_firsts()
    ensures { TwoMapFaults }
{}
