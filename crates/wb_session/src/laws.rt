//! What holds of every script.
ghost use Rattle.std.specs.Prelude.{◌≡◌, List};
ghost use Rattle.wb_rom.specs.declared.images.Image.{Image};
ghost use Rattle.wb_script.specs.declared.items.Item.{Item};
ghost use Rattle.wb_session.specs.declared.transcripts.Transcript.{Transcript};
ghost use Rattle.wb_session.specs.Transcript.{IsTranscript};

/// Each script has exactly one transcript on each image.
pub fn each_script_has_one_transcript()
    ensures some { (image : Image) (items : List Item) → (t : Transcript) × IsTranscript image items t }
    ensures only { (image : Image) (items : List Item) (t other : Transcript) →
        IsTranscript image items t → IsTranscript image items other → t ≡ other }
{}
