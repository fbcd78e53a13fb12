// Opens a sheet: Check's refusals 1 to 8 in their order, and on acceptance all that the later layers need, worked out once.
#![tactic(auto)]

ghost use Rattle.std.specs.Prelude.{◌≡◌, length};
ghost use Rattle.admit.specs.Opened.{Sized, refusing, JudgeAsked, Judged, ReadJudged, OpenedGiven};

use answers::{Fault, Refusal};
use node::NetHeld;
use sheet::SheetHeld;

// A fault at a place, if there is one, is a refusal there.
fn refuse_at(fault: Fault, place: Option<usize>) -> Result<(), Refusal>
    ensures { result ≡ refusing fault place }
{
    match place {
        Some(place) => Err(Refusal { fault, place }),
        None => Ok(()),
    }
}

// The sheet as a whole: 6, then 7, then 8.
fn judge_whole(h: SheetHeld, net: &mut NetHeld) -> Result<(), Refusal>
    requires { JudgeAsked h net.old.columns }
    ensures kept { net.new.columns ≡ net.old.columns }
    ensures judged { Judged result h net.new }
{
    let wrong = network::survey(h, &net.columns, &mut net.rows);
    let alone = links::pair_links(h, &net.rows.starts, &net.columns, &mut net.opposite);
    refuse_at(Fault::NoOpposite, alone)?;
    refuse_at(Fault::WrongSum, wrong)?;
    let looped = order::find_order(h, &net.columns, &net.rows, &mut net.order);
    refuse_at(Fault::OnLoop, looped)
}

// Says of an array what its type says, where a call has hidden it. Nothing is left of it when it is built.
fn size_up<T, const N: usize>(array: &[T; N])
    ensures { length array.now ≡ N }
{
    let _long = array.len();
}

// The same of the whole storage.
fn size_up_all(net: &NetHeld)
    ensures { Sized net.now }
{
    size_up(&net.columns.traffic);
    size_up(&net.columns.from);
    size_up(&net.columns.to);
    size_up(&net.columns.load);
    size_up(&net.columns.fraction);
    size_up(&net.rows.starts);
    size_up(&net.rows.flow_starts);
    size_up(&net.rows.flow);
    size_up(&net.opposite);
    size_up(&net.order.order);
    size_up(&net.order.turn);
}

// The sheet that the bytes hold, judged.
fn read_and_judge(b: &[u8], net: &mut NetHeld) -> Result<SheetHeld, Refusal>
    ensures { ReadJudged result b.now net.new }
{
    let (h, _) = sheet::read_alone(b, &mut net.columns)?;
    judge_whole(h, net)?;
    Ok(h)
}

pub fn open(b: &[u8], net: &mut NetHeld) -> Result<SheetHeld, Refusal>
    ensures { OpenedGiven result b.now net.new }
{
    let opened = read_and_judge(b, net);
    size_up_all(net);
    opened
}
