use crate::service_at;

#[test]
fn services_have_their_names(rt: HostRuntime) {
    assert_eq!(rt; service_at(4).ordinal, 138);
}
