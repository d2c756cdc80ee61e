//! The command `picture` for a plan: draws the plan, or the requested part of it.
ghost use Rattle.std.specs.Prelude.{IfErr, IfOk};
ghost use Rattle.std.specs.declared.alloc.Global.{Global};
ghost use Rattle.app_commands.specs.ShownFiles.{EndsPicture};
ghost use Rattle.app_commands.specs.CommandOutputs.{IsPictureOutput};

use crate::context::Texts;
use crate::output::{Output, print_text};
use crate::picturing::{picture_apart, plan_picture, write_picture_file};
use app_cli::PictureRequest;
use app_failure::Failure;
use app_files::{CommandFiles, is_standard};
use std::rt::Files;

/// Draws a plan, or a requested part of it, into `file`, or to standard output for `-`. Refuses the plan's own file as output. Returns the
/// output of `picture`. `draw` of `app_networks` calls it.
pub fn draw_plan<H: AllocGlobal + Files>(
    files: &mut CommandFiles<'_, H>,
    plan: &str,
    file: &str,
    part: Option<&PictureRequest>,
    texts: &mut Texts,
) -> Result<Output, Failure>
    ensures ok { IfOk result (IsPictureOutput file.now) }
    ensures fails { IfErr result (EndsPicture Global plan.now file.now) }
{
    let text = match plan_picture(files.alloc(), files, plan, part, texts) {
        Ok(text) => text,
        Err(fault) => return Err(fault),
    };
    if is_standard(file) {
        return match picture_apart(files, text) {
            Ok(text) => Ok(print_text(files.alloc(), text, 0)),
            Err(fault) => Err(fault),
        };
    }
    match write_picture_file(files, file, text.as_str()) {
        Ok(_) => Ok(print_text(files.alloc(), String::new(files.alloc()), 0)),
        Err(fault) => Err(fault),
    }
}
