// What a start book grants: whatever read_book accepts, run accepts; a book that gives no tagged capability gives nothing.
#![tactic(auto)]

ghost use Rattle.granted.specs.Granted.{ReadIsAccepted, NothingGranted, EmptyBook};

pub fn claims()
    ensures read_is_accepted { ReadIsAccepted }
    ensures nothing_granted { NothingGranted }
    ensures empty_book { EmptyBook }
{}
