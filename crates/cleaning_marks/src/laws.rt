//! Laws about the definitions alone. The functions do nothing: what they ensure is the law.

ghost use Rattle.std.specs.Prelude.{◌≡◌, ◌≤◌, ◌<◌, ◌^◌, ◌++◌, ℕ, ℤ, FitsSigned, List, Some, Ok};
ghost use Rattle.std.specs.Int.{w64};
ghost use Rattle.checksum.specs.Crc.{crc_of};
ghost use Rattle.frame_fields.specs.Fields.{be, number, size32, size64};
ghost use Rattle.frame_fields.specs.Reading.{read_field, read_fields};
ghost use Rattle.journal.specs.Files.{Group, StartsWithGroup, group_body, group_end, head_body, head_bytes};
ghost use Rattle.journal.specs.declared.head.Head.{Head};
ghost use Rattle.cleaning_marks.specs.Believing.{belief};
ghost use Rattle.cleaning_marks.specs.Faults.{MarksFault};
ghost use Rattle.cleaning_marks.specs.Files.{HasNumbers, IsMarksFile, MarksSaid};
ghost use Rattle.cleaning_marks.specs.Groups.{group_fields, seen_group, seen_head};
ghost use Rattle.cleaning_marks.specs.declared.error.MarksError.{MarksError};
ghost use Rattle.cleaning_marks.specs.declared.place.JournalPlace.{JournalPlace};
ghost use Rattle.cleaning_marks.specs.declared.place.JournalSeen.{JournalSeen};

/// What is written is read back: bytes that are the file of some marks have no fault, so they are accepted, and they are the file of
/// no others. What is said has numbers of 64 and 32 bits, as all that is written and read has.
pub fn what_is_written_is_read()
    ensures one_meaning { (said other : MarksSaid) (bytes : List ℕ) → HasNumbers said → HasNumbers other
        → IsMarksFile said bytes → IsMarksFile other bytes → said ≡ other }
    ensures no_fault { (said : MarksSaid) (bytes : List ℕ) (e : MarksError)
        → IsMarksFile said bytes → MarksFault e bytes → ⊥ }
{}

/// What it is to be believed: the journal has the number and the key of the place, at least its bytes of groups, and just its group
/// below the border.
pub fn believed_is_as_it_was()
    ensures only { (p : JournalPlace) (j : JournalSeen) → belief p j ≡ Ok tt
        → (j.number ≡ p.number) × (j.key ≡ p.key) × (p.size ≤ j.read)
        × (j.group ≡ Some (record { at = p.group_at; end = p.size; crc = p.group_crc })) }
    ensures whole { (p : JournalPlace) (j : JournalSeen)
        → j.number ≡ p.number → j.key ≡ p.key → p.size ≤ j.read
        → j.group ≡ Some (record { at = p.group_at; end = p.size; crc = p.group_crc })
        → belief p j ≡ Ok tt }
{}

/// A group that stands in a journal is seen as it is, by its first bytes: where it begins and ends, and its crc. So is the head.
pub fn groups_are_seen()
    ensures group { (key : ℤ) (at : ℕ) (g : Group) (bytes more : List ℕ) → FitsSigned w64 key
        → StartsWithGroup (be size64 key) at g bytes more
        → group_end (be size64 key) at g < 2 ^ 64
        → seen_group key at (read_fields group_fields bytes) ≡ Some (record {
          at = at;
          end = group_end (be size64 key) at g;
          crc = crc_of (group_body (be size64 key) at g);
        }) }
    ensures head { (start : ℕ) (h : Head) (more : List ℕ)
        → seen_head start (read_field (number size32) (head_bytes h ++ more))
        ≡ Some (record { at = 0; end = start; crc = crc_of (head_body h) }) }
{}
