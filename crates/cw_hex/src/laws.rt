//! Laws of the HEX text, each the contract of a function that does nothing.
ghost use Rattle.std.specs.Prelude.{◌≡◌, ◌<◌, ◌⊎◌, ℕ, List, slice_index};
ghost use Rattle.cw_i86.specs.State.{State};
ghost use Rattle.cw_i86.specs.MachineRun.{IsStart};
ghost use Rattle.cw_image.specs.declared.image.Image.{Image};
ghost use Rattle.cw_image.specs.ImageFormat.{IsImage};
ghost use Rattle.cw_hex.specs.declared.fault.HexFault.{HexFault};
ghost use Rattle.cw_hex.specs.declared.fault.HexFault.TheVariants as faults;
ghost use Rattle.cw_hex.specs.HexText.{hex_text};
ghost use Rattle.cw_hex.specs.HexTold.{IsCleared, TellsHex, IsFirstHexFault};

use cw_cpu86::laws::one_start;

/// The text that is written of an image tells the state in which the image begins, as `load` gives it.
pub fn written_text_begins()
    ensures { (image : Image) (s : State) → IsImage image → ((k : ℕ) → slice_index image.code k < 256)
        → IsStart image.code image.words s → TellsHex (hex_text image.code image.words) s }
{
    one_start();
}

/// A text tells one state or has one first fault, which never is want of memory.
pub fn hex_format()
    ensures one { (text : List ℕ) (s t : State) → TellsHex text s → TellsHex text t → s ≡ t }
    ensures fault { (text : List ℕ) (f g : HexFault) → IsFirstHexFault text f → IsFirstHexFault text g → f ≡ g }
    ensures not_both { (text : List ℕ) (s : State) (f : HexFault) → TellsHex text s → IsFirstHexFault text f → ⊥ }
    ensures no_memory { (text : List ℕ) → IsFirstHexFault text faults.NoMemory → ⊥ }
    ensures some { (cleared : State) (text : List ℕ) → IsCleared cleared → ((s : State) × TellsHex text s) ⊎ ((f : HexFault) × IsFirstHexFault text f) }
{
    one_start();
}
