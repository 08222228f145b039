//! The text of a made workload.
ghost use Rattle.std.specs.Prelude.{◌≡◌, IfOk, Ok};
ghost use Rattle.net_reader.specs.Input.{IsInput};
ghost use Rattle.make_load.specs.Load.{IsLoad, load_contents, load_text_of};

use crate::laws::loads_read;
use crate::workload::Workload;
use input_text::listing_text;
use std::alloc::{AllocError, Global};
use word_line::Load;

/// The text of the input that a load makes. It reads as that input, so without a fault.
pub fn load_text(alloc: Global, load: Load) -> Result<Vec<u8>, AllocError>
    requires { IsLoad load }
    ensures text { IfOk result (λ text. text.items ≡ load_text_of load) }
    ensures reads { IfOk result (λ text. IsInput text.items (Ok (load_contents load))) }
{
    loads_read();
    let workload = Workload::new(alloc, load)?;
    listing_text(alloc, workload.listing())
}
