//! Types that can be sent to other threads and shared with them. The test is that this compiles.
use household::{Household, HouseholdFault, Row};
use m_fixed::{Amount, AmountFault, Op, Value};
use m_places::{ErrorKind, Label, Name, Place, Seq, SharedName};
use observables::{Answer, Face, FaceLabel, Stop};

fn crosses_threads<T: Send + Sync>() {}

#[test]
fn types_cross_threads() {
    crosses_threads::<Amount>();
    crosses_threads::<Value>();
    crosses_threads::<Op>();
    crosses_threads::<AmountFault>();
    crosses_threads::<Name>();
    crosses_threads::<Place>();
    crosses_threads::<Seq<Name>>();
    crosses_threads::<SharedName>();
    crosses_threads::<ErrorKind>();
    crosses_threads::<Label>();
    crosses_threads::<Household>();
    crosses_threads::<HouseholdFault>();
    crosses_threads::<Row>();
    crosses_threads::<Stop>();
    crosses_threads::<Answer>();
    crosses_threads::<FaceLabel>();
    crosses_threads::<Face>();
}
