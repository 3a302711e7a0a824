//! What the definition of images comes to.
ghost use Rattle.lp_image.specs.Image.{NoImageBeginsAnother};

/// No image begins another: what is read of bytes that begin with the image of a record is that
/// record, whatever follows it.
pub fn law_no_image_begins_another()
    ensures { NoImageBeginsAnother }
{}
