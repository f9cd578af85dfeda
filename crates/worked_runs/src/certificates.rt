use cert_format::{CertError, read, write};
use std::test::Fail;

// A chain with a bump, the same with held arcs, the same with weights, and a map of two provinces.
const TEXTS: [&str; 4] = [
    r#"{"bound":1,"chains":[{"arc":0,"from":0,"kept":[0,3],"layers":[1,1,1,0]}],"version":1}"#,
    r#"{"bound":1,"chains":[{"arc":2,"from":0,"kept":[0,3],"layers":[1,1,1,0]}],"held":[0,1],"version":2}"#,
    r#"{"bound":1,"chains":[{"arc":0,"from":0,"kept":[0,1,3],"layers":[2,1,1,0]}],"held":[],"version":3,"weights":[1,2]}"#,
    r#"{"bound":1,"chains":[{"arc":0,"from":0,"kept":[0,4],"layers":[1,3,2,1,0]},{"arc":1,"from":0,"kept":[0,1,2],"layers":[2,1,0]},{"arc":1,"from":2,"kept":[0,1],"layers":[1,0]},{"arc":2,"from":0,"kept":[0,1,2],"layers":[2,1,0]},{"arc":2,"from":2,"kept":[0,1],"layers":[1,0]}],"version":1}"#,
];

// Texts that are no certificate: another value, a member twice, a line feed behind, a space, a zero
// before a number, a bound above 2^30, held arcs that do not rise, and a version without its
// members.
const OTHERS: [&str; 8] = [
    "[]",
    r#"{"bound":1,"chains":[],"version":1,"version":1}"#,
    "{\"bound\":1,\"chains\":[],\"version\":1}\n",
    r#"{"bound":1, "chains":[],"version":1}"#,
    r#"{"bound":01,"chains":[],"version":1}"#,
    r#"{"bound":1073741825,"chains":[],"version":1}"#,
    r#"{"bound":1,"chains":[],"held":[1,1],"version":2}"#,
    r#"{"bound":1,"chains":[],"version":2}"#,
];

#[test]
fn texts_are_read_and_written(rt: HostRuntime) -> Result<(), Fail> {
    let alloc = rt.alloc();
    let versions = [1, 2, 3, 1];
    let counts = [1, 1, 1, 5];
    for k in 0..4 {
        let certificate = read(alloc, TEXTS[k].as_bytes())?;
        assert_eq!(rt; certificate.version, versions[k]);
        assert_eq!(rt; certificate.records.count(), counts[k]);
        let text = write(
            alloc,
            certificate.version,
            certificate.bound,
            certificate.weights,
            &certificate.held,
            &certificate.records,
        )?;
        assert_eq!(rt; text.as_slice(), TEXTS[k].as_bytes());
    }
    Ok(())
}

#[test]
fn other_texts_are_refused(rt: HostRuntime) -> Result<(), Fail> {
    for text in OTHERS {
        assert!(rt;
            matches!(
                read(rt.alloc(), text.as_bytes()),
                Err(CertError::NotCertificate)
            )
        );
    }
    Ok(())
}
