// ListView columns, read in and written.
ghost use Rattle.column.specs.Columns.{column_in};
ghost use Rattle.model.specs.Basics.{given};
ghost use Rattle.model.specs.Limits.{narrow};
ghost use Rattle.model.specs.View.{export_outcome, import_outcome};
ghost use Rattle.typed.specs.Typed.{ListServedIn, ViewServedIn};
ghost use Rattle.view_checks.specs.Views.{view_in};
ghost use Rattle.views.specs.ViewOutputs.{itself};

use crate::put_list;
use column::lists::{ListColumn, ListOutput};
use view_checks::{ViewColumn, ViewOutput};

pub fn import_view(view: ViewColumn, out: &mut ListOutput<i32>, counts: &mut [u64]) -> u32
    ensures { ListServedIn itself (given (import_outcome narrow (view_in view.entry))) result out.old out.new counts }
{
    if counts.len() < 4 {
        return 100;
    }
    let answer = views::import_view(view, out);
    put_list(answer, counts)
}

pub fn export_view(list: ListColumn<i32>, out: &mut ViewOutput, counts: &mut [u64]) -> u32
    ensures { ViewServedIn (export_outcome (column_in itself list.entry)) result out.old out.new counts }
{
    if counts.len() < 4 {
        return 100;
    }
    let answer = views::export_view(list, out);
    put_list(answer, counts)
}
