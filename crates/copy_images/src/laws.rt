//! Laws of images, over the definitions alone. The functions do nothing: what they ensure is the law.

ghost use Rattle.std.specs.Prelude.{◌≡◌, ◌≤◌, ℕ, pos, List, length, [], ◌∷◌, ◌++◌, Some};
ghost use Rattle.content.specs.Content.{Content, IsContent, empty};
ghost use Rattle.copy_images.specs.declared.layout.TheConstants.{MAX_COUNT};
ghost use Rattle.copy_images.specs.declared.error.ImageError.{ImageError};
ghost use Rattle.copy_images.specs.declared.error.ImageError.TheVariants.{OutOfMemory};
ghost use Rattle.copy_images.specs.Images.{head_of, front_of, image_of, first_image_of, IsImage};
ghost use Rattle.copy_images.specs.Reading.{IsBytes, image_at};
ghost use Rattle.copy_images.specs.Refusals.{Refuses};

/// A valid content whose ranges and batches can be counted has an image. So what `write_image` gives of
/// such a copy is accepted by `read_image`.
pub fn every_content_has_an_image()
    ensures { (c : Content) → IsContent c → length c.cover ≤ MAX_COUNT → length c.kept ≤ MAX_COUNT
        → IsImage (image_of c) c }
{}

/// Such a content that starts at 0 has an image of version 0 beside it, which is read too.
pub fn a_content_from_0_has_an_image_of_version_0()
    ensures { (c : Content) → IsContent c → c.start ≡ pos 0 → length c.cover ≤ MAX_COUNT
        → length c.kept ≤ MAX_COUNT → IsImage (first_image_of c) c }
{}

/// The image of a copy that has seen nothing, byte for byte.
pub fn the_image_of_an_empty_copy()
    ensures { image_of empty
        ≡ 75 ∷ 67 ∷ 80 ∷ 89 ∷ 0 ∷ 1 ∷ 0 ∷ 0 ∷ 0 ∷ 0 ∷ 0 ∷ 0 ∷ 0 ∷ 0 ∷ 0 ∷ 0 ∷ 0 ∷ 0 ∷ 0 ∷ 0 ∷
        0 ∷ 0 ∷ 252 ∷ 145 ∷ 242 ∷ 54 ∷ [] }
{}

/// The image of version 0 of a copy that has seen nothing, byte for byte.
pub fn the_image_of_version_0_of_an_empty_copy()
    ensures { first_image_of empty
        ≡ 75 ∷ 67 ∷ 80 ∷ 89 ∷ 0 ∷ 0 ∷ 0 ∷ 0 ∷ 0 ∷ 0 ∷ 0 ∷ 0 ∷ 0 ∷ 0 ∷ 89 ∷ 26 ∷ 53 ∷ 129 ∷ [] }
{}

/// What comes before two batches of a copy that starts at 1, where offsets 1 to 3 were seen, byte for
/// byte.
pub fn a_front_of_one_range()
    ensures { head_of (pos 1) ++ front_of ((pos 1, pos 3) ∷ []) (pos 2)
        ≡ 75 ∷ 67 ∷ 80 ∷ 89 ∷ 0 ∷ 1 ∷ 0 ∷ 0 ∷ 0 ∷ 0 ∷ 0 ∷ 0 ∷ 0 ∷ 1 ∷ 0 ∷ 0 ∷ 0 ∷ 1 ∷ 0 ∷ 0 ∷
        0 ∷ 0 ∷ 0 ∷ 0 ∷ 0 ∷ 1 ∷ 0 ∷ 0 ∷ 0 ∷ 0 ∷ 0 ∷ 0 ∷ 0 ∷ 3 ∷ 0 ∷ 0 ∷ 0 ∷ 2 ∷ [] }
{}

/// Two contents with the same image are equal: same start, same ranges, same kept batches.
pub fn images_are_unique()
    ensures { (bytes : List ℕ) (a b : Content) → IsImage bytes a → IsImage bytes b → a ≡ b }
{}

/// Bytes have one first fault.
pub fn one_refusal()
    ensures { (bytes : List ℕ) (e f : ImageError) → Refuses bytes e → Refuses bytes f → e ≡ f }
{}

/// No fault stands in an image: its reading fails only where there is no memory.
pub fn an_image_is_not_refused()
    ensures { (bytes : List ℕ) (c : Content) (e : ImageError) → IsImage bytes c → Refuses bytes e
        → e ≡ OutOfMemory }
{}

/// What is read of bytes is the content of which they are the image; of other bytes it is nothing.
pub fn reading_is_exact()
    ensures reads { (bytes : List ℕ) (c : Content) → IsImage bytes c → image_at bytes ≡ Some c }
    ensures reads_only_images { (bytes : List ℕ) (c : Content) → IsBytes bytes
        → image_at bytes ≡ Some c → IsImage bytes c }
{}
