//! A script on the auction that the load of `bench` runs on, for several tests.

/// Two bids in one batch, and what is left.
pub(crate) const TWO_BIDS: &str = "deposit alice 10
deposit bob 10
let wa = new alice keep(0;)
let wb = new bob keep(0;)
let auc = new alice start(0; wa)
begin
exec alice place(5; auc, wa)
exec bob place(7; auc, wb)
end
show
";

/// What is printed where the first bid is made first.
pub(crate) const TWO_BIDS_REPORT: &str = "accepted
unit 1
bound keep = 0
bound open = 0
bound start = 0
bound place = 3
bound ask = 2
line 1 deposited
line 2 deposited
line 3 committed firings 0 spent 0
line 4 committed firings 0 spent 0
line 5 committed firings 2 spent 0
line 6 committed firings 76 spent 6
result 5 5
result 6 7
line 10 show
account alice 7
account bob 7
contract wa process 1 gas 0 free
contract wb process 2 gas 0 free
contract auc process 3 gas 0 free
channel 28 owner 3
stored 0
spent 6
deposits 20
";
