// What the definitions promise of bytes, tags and capabilities in memory, and of a step that stores one and a step that loads it.
#![tactic(auto)]

ghost use Rattle.manual.specs.Claims.{TopIsEmpty, StoredIsLoaded, LoadedIsStored, OthersStay, TagIsSet, OtherTagsStay, CapIsKept, BitsAreKept};
ghost use Rattle.kept.specs.Kept.{StoredAndLoaded, LoadedAndStored};

pub fn claims()
    ensures top_is_empty { TopIsEmpty }
    ensures stored_is_loaded { StoredIsLoaded }
    ensures loaded_is_stored { LoadedIsStored }
    ensures others_stay { OthersStay }
    ensures tag_is_set { TagIsSet }
    ensures other_tags_stay { OtherTagsStay }
    ensures cap_is_kept { CapIsKept }
    ensures bits_are_kept { BitsAreKept }
    ensures stored_and_loaded { StoredAndLoaded }
    ensures loaded_and_stored { LoadedAndStored }
{}
